// Sheets as text and what is read of them, worked out by hand: a text, a bar, and what is read or the refusal. A line without a
// bar says what the lines below it try.
//
// '/' stands for a line end, {N:PART} for N times PART, and at the front of a text
//   & for the lines of the operators nil, neg and both with one weighing, 43 bytes in six lines (HOUSE);
//   @ for the same and the line `rules`, 49 bytes in seven lines;
//   % for 32 names, 69 bytes without a line end (NAMES).
//
// Of a sheet that is read, each operator is given by its name, its arity and what it weighs in the first and in the second
// weighing, base and factors, with commas between operators; then each rule behind a semicolon. A missing weighing gives 0:111.
// Here @ at the front stands for the operators of HOUSE, with one weighing, and % for those of NAMES, all without arguments and
// with base 0.
pub const CASES: &str = "sheets that are read
@neg(neg(A))=A/neg(nil)=nil/neg(both(A,B))=both(neg(A),neg(B))/both(nil,A)=A/both(A,nil)=A/both(both(A,B),C)=both(A,both(B,C))/|@; neg(neg(A))=A; neg(nil)=nil; neg(both(A,B))=both(neg(A),neg(B)); both(nil,A)=A; both(A,nil)=A; both(both(A,B),C)=both(A,both(B,C))
@|@
nil neg both/0 1 2/1 1 3/- 2 2/- - 1/- - -/rules/neg(nil)=nil/|nil 0 1:--- 0:111, neg 1 1:2-- 0:111, both 2 3:21- 0:111; neg(nil)=nil
c/3/5/1/2/3/rules/|c 3 5:123 0:111
c/3/5/1/2/3/0/4/4/4/rules/|c 3 5:123 0:444
c/3/0/1/1/1/rules/|c 3 0:111 0:111
c/3/0/1/1/1/0/1/1/1/rules/|c 3 0:111 0:111
c/0/100/-/-/-/rules/|c 0 100:--- 0:111
c/0/0/-/-/-/100/-/-/-/rules/|c 0 0:--- 100:---
a b c d/0 1 2 3/1 2 3 4/- 1 2 3/- - 3 4/- - - 1/10 20 30 40/- 4 3 2/- - 2 1/- - - 3/rules/d(A,B,C)=c(b(C),c(B,a))/|a 0 1:--- 10:---, b 1 2:1-- 20:4--, c 2 3:23- 30:32-, d 3 4:341 40:213; d(A,B,C)=c(b(C),c(B,a))
&1 1 3/- 2 2/- - 1/- - -/rules/|nil 0 1:--- 1:---, neg 1 1:2-- 1:2--, both 2 3:21- 3:21-
abcdefghijkl x1/0 0/0 0/- -/- -/- -/rules/x1=abcdefghijkl/|abcdefghijkl 0 0:--- 0:111, x1 0 0:--- 0:111; x1=abcdefghijkl
@both(#0,A)=#999999/both(A,#7)=neg(#10)/|@; both(#0,A)=#999999; both(A,#7)=neg(#10)
@nil=nil/nil=#1/nil=#1/|@; nil=nil; nil=#1; nil=#1
@neg(A)=A/neg(A)=neg(A)/neg(B)=nil/|@; neg(A)=A; neg(A)=neg(A); neg(B)=nil
c/3/0/1/1/1/rules/c(c(A,B,C),c(D,E,F),c(G,H,#1))=c(H,c(G,F,E),c(D,C,c(B,A,A)))/|c 3 0:111 0:111; c(c(A,B,C),c(D,E,F),c(G,H,#1))=c(H,c(G,F,E),c(D,C,c(B,A,A)))
rules/1/1/1/-/-/rules/rules(A)=A/|rules 1 1:1-- 0:111; rules(A)=A
rules/0/0/-/-/-/rules/rules=rules/|rules 0 0:--- 0:111; rules=rules
rules/0/0/-/-/-/0/-/-/-/rules/rules=#1/|rules 0 0:--- 0:---; rules=#1
the line of names
|refused 3 text 0 0
/|refused 3 text 0 0
 nil/0/|refused 3 text 0 0
nil|refused 3 text 3 0
nil |refused 3 text 4 0
nil neg|refused 3 text 7 0
nil /0/|refused 3 text 4 0
nil  neg/0 1/|refused 3 text 4 0
nil neg /0 1/|refused 3 text 8 0
nil,neg/0 1/|refused 3 text 3 0
nil(neg)/0 1/|refused 3 text 3 0
nil=neg/0 1/|refused 3 text 3 0
nil-neg/0 1/|refused 3 text 3 0
nil#1/0/|refused 3 text 3 0
nilA/0/|refused 3 text 3 0
A/0/|refused 3 text 0 0
nil H/0 0/|refused 3 text 4 0
7/0/|refused 3 text 0 0
7nil/0/|refused 3 text 0 0
nil 0 neg/|refused 3 text 4 0
#7/0/|refused 3 text 0 0
-/0/|refused 3 text 0 0
(/0/|refused 3 text 0 0
abcdefghijklm/0/|refused 3 text 12 0
nil abcdefghijklm/0 0/|refused 3 text 16 0
0 1 2/1 1 3/|refused 3 text 0 0
Nil/0/|refused 1 text 0 0
?/0/|refused 1 text 0 0
nil?/0/|refused 1 text 3 0
nil I/0 0/|refused 1 text 4 0
nil_neg/0/|refused 1 text 3 0
nil\tneg/0 1/|refused 1 text 3 0
nil\r/0\r/|refused 1 text 3 0
\u{0}/|refused 1 text 0 0
é/0/|refused 1 text 0 0
007/0/|refused 2 text 0 0
#07/0/|refused 2 text 0 0
#/0/|refused 2 text 0 0
#1000000/0/|refused 2 text 0 0
nil#/0/|refused 2 text 3 0
nil 07/0 0/|refused 2 text 4 0
nil nil/0 0/|refused 7 sheet 4 0
nil neg nil/0 1 0/|refused 7 sheet 8 0
nil neg nil?/0 1 0/|refused 7 sheet 8 0
abcdefghijkl abcdefghijkl/0 0/|refused 7 sheet 13 0
rules rules/|refused 7 sheet 6 0
thirty-two names and one more
%/0{31: 0}/0{31: 0}/-{31: -}/-{31: -}/-{31: -}/rules/|%
%/0{31: 0}/0{31: 0}/-{31: -}/-{31: -}/-{31: -}/rules/f1=a/|%; f1=a
% g1/|refused 6 text 70 0
% a/|refused 6 text 70 0
% rules/|refused 6 text 70 0
% /|refused 3 text 70 0
%  g1/|refused 3 text 70 0
%|refused 3 text 69 0
% |refused 3 text 70 0
% A/|refused 3 text 70 0
% 0/|refused 3 text 70 0
% 01/|refused 2 text 70 0
% ?/|refused 1 text 70 0
%/0{30: 0}/|refused 3 text 131 1
%/0{32: 0}/|refused 3 text 133 1
the line of argument counts
nil/|refused 3 text 4 1
nil//|refused 3 text 4 1
nil/0|refused 3 text 5 1
nil/0 |refused 3 text 5 1
nil/ 0/|refused 3 text 4 1
nil/0 /|refused 3 text 5 1
nil/0 1/|refused 3 text 5 1
nil/0-/|refused 3 text 5 1
nil/-/|refused 3 text 4 1
nil/x/|refused 3 text 4 1
nil/0x/|refused 3 text 5 1
nil/rules/|refused 3 text 4 1
nil/A/|refused 3 text 4 1
nil/#1/|refused 3 text 4 1
nil/,/|refused 3 text 4 1
nil neg both/0 1/|refused 3 text 16 1
nil neg both/0 1 /|refused 3 text 17 1
nil neg both/0  1 2/|refused 3 text 15 1
nil neg both/0,1,2/|refused 3 text 14 1
nil neg both/0 1 2 2/|refused 3 text 18 1
nil neg both/0 1 -/|refused 3 text 17 1
nil/?/|refused 1 text 4 1
nil/0?/|refused 1 text 5 1
nil/0 ?/|refused 3 text 5 1
nil/4/|refused 2 text 4 1
nil/01/|refused 2 text 4 1
nil/00/|refused 2 text 4 1
nil/10/|refused 2 text 4 1
nil/256/|refused 2 text 4 1
nil/4294967296/|refused 2 text 4 1
nil/18446744073709551616/|refused 2 text 4 1
nil/123456789012345678901234567890/|refused 2 text 4 1
nil/#/|refused 2 text 4 1
nil/0#01|refused 2 text 5 1
nil neg both/012/|refused 2 text 13 1
nil neg both/0 12/|refused 2 text 15 1
nil neg both/0 1 4/|refused 2 text 17 1
nil/0/1/|refused 3 text 8 3
the line of bases
nil neg both/0 1 2/|refused 3 text 19 2
nil neg both/0 1 2//|refused 3 text 19 2
nil neg both/0 1 2/1 1 3|refused 3 text 24 2
nil neg both/0 1 2/ 1 1 3/|refused 3 text 19 2
nil neg both/0 1 2/1  1 3/|refused 3 text 21 2
nil neg both/0 1 2/1 1 3 /|refused 3 text 24 2
nil neg both/0 1 2/1 1 3 1/|refused 3 text 24 2
nil neg both/0 1 2/1 1/|refused 3 text 22 2
nil neg both/0 1 2/1 1 -/|refused 3 text 23 2
nil neg both/0 1 2/- 2 2/|refused 3 text 19 2
nil neg both/0 1 2/1 1 nil/|refused 3 text 23 2
nil neg both/0 1 2/1 1 #3/|refused 3 text 23 2
nil neg both/0 1 2/1 1 A/|refused 3 text 23 2
nil neg both/0 1 2/rules/|refused 3 text 19 2
nil neg both/1 1 3/- 2 2/|refused 3 text 19 2
nil neg both/0 1 2/1 1 ?/|refused 1 text 23 2
nil neg both/0 1 2/1 1 101/|refused 2 text 23 2
nil neg both/0 1 2/1 1 1000/|refused 2 text 23 2
nil neg both/0 1 2/1 1 256/|refused 2 text 23 2
nil neg both/0 1 2/1 1 4294967297/|refused 2 text 23 2
nil neg both/0 1 2/1 1 18446744073709551617/|refused 2 text 23 2
nil neg both/0 1 2/01 1 3/|refused 2 text 19 2
nil neg both/0 1 2/1 1 00/|refused 2 text 23 2
nil neg both/0 1 2/1 1 3#/|refused 2 text 24 2
the lines of factors
nil neg both/0 1 2/1 1 3/|refused 3 text 25 3
nil neg both/0 1 2/1 1 3/1 2 2/|refused 3 text 25 3
nil neg both/0 1 2/1 1 3/0 2 2/|refused 3 text 25 3
nil neg both/0 1 2/1 1 3/5 2 2/|refused 3 text 25 3
nil neg both/0 1 2/1 1 3/01 2 2/|refused 2 text 25 3
nil neg both/0 1 2/1 1 3/ - 2 2/|refused 3 text 25 3
nil neg both/0 1 2/1 1 3/-  2 2/|refused 3 text 27 3
nil neg both/0 1 2/1 1 3/- 2 2 /|refused 3 text 30 3
nil neg both/0 1 2/1 1 3/- 2 2 -/|refused 3 text 30 3
nil neg both/0 1 2/1 1 3/- 2 2|refused 3 text 30 3
nil neg both/0 1 2/1 1 3/- 2/|refused 3 text 28 3
nil neg both/0 1 2/1 1 3/- - 2/|refused 3 text 27 3
nil neg both/0 1 2/1 1 3/- 2 -/|refused 3 text 29 3
nil neg both/0 1 2/1 1 3/- - 1/- - -/|refused 3 text 27 3
nil neg both/0 1 2/1 1 3/--/|refused 3 text 26 3
nil neg both/0 1 2/1 1 3/-2 2 2/|refused 3 text 26 3
nil neg both/0 1 2/1 1 3/-02 2 2/|refused 2 text 26 3
nil neg both/0 1 2/1 1 3/- 0 2/|refused 2 text 27 3
nil neg both/0 1 2/1 1 3/- 5 2/|refused 2 text 27 3
nil neg both/0 1 2/1 1 3/- 257 2/|refused 2 text 27 3
nil neg both/0 1 2/1 1 3/- 02 2/|refused 2 text 27 3
nil neg both/0 1 2/1 1 3/- #01 2/|refused 2 text 27 3
nil neg both/0 1 2/1 1 3/- #1 2/|refused 3 text 27 3
nil neg both/0 1 2/1 1 3/- A 2/|refused 3 text 27 3
nil neg both/0 1 2/1 1 3/- ? 2/|refused 1 text 27 3
nil neg both/0 1 2/1 1 3/- 2 2/|refused 3 text 31 4
nil neg both/0 1 2/1 1 3/- 2 2/- 1 1/|refused 3 text 33 4
nil neg both/0 1 2/1 1 3/- 2 2/- - -/|refused 3 text 35 4
nil neg both/0 1 2/1 1 3/- 2 2/- - 0/|refused 2 text 35 4
nil neg both/0 1 2/1 1 3/- 2 2/- - 5/|refused 2 text 35 4
nil neg both/0 1 2/1 1 3/- 2 2/- - 1/|refused 3 text 37 5
nil neg both/0 1 2/1 1 3/- 2 2/- - 1/rules/|refused 3 text 37 5
nil neg both/0 1 2/1 1 3/- 2 2/- - 1/- - 1/|refused 3 text 41 5
nil neg both/0 1 2/1 1 3/- 2 2/- - 1/- - -|refused 3 text 42 5
c/3/5/1/2/-/|refused 3 text 10 5
c/3/5/1/2/5/|refused 2 text 10 5
c/3/5/1/2/0/|refused 2 text 10 5
c/3/5/1/2/3 3/|refused 3 text 11 5
the line of the word, behind four lines of values
&|refused 3 text 43 6
&rules|refused 3 text 48 6
&rules /|refused 3 text 48 6
& rules/|refused 3 text 43 6
&/rules/|refused 3 text 43 6
&rule/|refused 3 text 43 6
&rulesx/|refused 3 text 43 6
&rules7/|refused 3 text 43 6
&nil/|refused 3 text 43 6
&neg(A)=A/|refused 3 text 43 6
&-/|refused 3 text 43 6
&- 2 2/|refused 3 text 43 6
&A/|refused 3 text 43 6
&#1/|refused 3 text 43 6
&rules(/|refused 3 text 48 6
&rules-/|refused 3 text 48 6
&rules#/|refused 2 text 48 6
&rules?/|refused 1 text 48 6
&Rules/|refused 1 text 43 6
&RULES/|refused 1 text 43 6
&#01/|refused 2 text 43 6
&01 1 3/|refused 2 text 43 6
&101 1 3/|refused 2 text 43 6
&?/|refused 1 text 43 6
&rules/rules/|refused 4 text 49 7
the second weighing
&1 1 3/rules/|refused 3 text 49 7
&1 1 3/- 2 2/rules/|refused 3 text 55 8
&1 1 3/- 2 2/- - 1/rules/|refused 3 text 61 9
&1/rules/|refused 3 text 44 6
&1 1 -/|refused 3 text 47 6
&0 0 101/|refused 2 text 47 6
&1 1 3/1 2 2/|refused 3 text 49 7
&1 1 3/- 5 2/|refused 2 text 51 7
&1 1 3/- 2 2/- - 1/- - 1/|refused 3 text 65 9
&1 1 3/- 2 2/- - 1/- - - /|refused 3 text 66 9
the line of the word, behind eight lines of values
&1 1 3/- 2 2/- - 1/- - -/|refused 3 text 67 10
&1 1 3/- 2 2/- - 1/- - -/1 1 3/- 2 2/- - 1/- - -/rules/|refused 3 text 67 10
&1 1 3/- 2 2/- - 1/- - -/101/|refused 3 text 67 10
&1 1 3/- 2 2/- - 1/- - -/01/|refused 2 text 67 10
&1 1 3/- 2 2/- - 1/- - -/-/|refused 3 text 67 10
&1 1 3/- 2 2/- - 1/- - -/ruler/|refused 3 text 67 10
&1 1 3/- 2 2/- - 1/- - -/ rules/|refused 3 text 67 10
&1 1 3/- 2 2/- - 1/- - -//rules/|refused 3 text 67 10
&1 1 3/- 2 2/- - 1/- - -/rules|refused 3 text 72 10
&1 1 3/- 2 2/- - 1/- - -/rules/no/|refused 4 text 73 11
in front of a left side
@/|refused 3 text 49 7
@ |refused 3 text 49 7
@ nil=nil/|refused 3 text 49 7
@=nil/|refused 3 text 49 7
@(/|refused 3 text 49 7
@)/|refused 3 text 49 7
@,/|refused 3 text 49 7
@-/|refused 3 text 49 7
@7=nil/|refused 3 text 49 7
@1000000=nil/|refused 3 text 49 7
@07=nil/|refused 2 text 49 7
@#01=nil/|refused 2 text 49 7
@#=nil/|refused 2 text 49 7
@#1000000=nil/|refused 2 text 49 7
@#18446744073709551617=nil/|refused 2 text 49 7
@?/|refused 1 text 49 7
@I=nil/|refused 1 text 49 7
@./|refused 1 text 49 7
@no(A)=A/|refused 4 text 49 7
@n|refused 4 text 49 7
@nilneg=nil/|refused 4 text 49 7
@#1=nil/|refused 8 sheet 49 7
@A=nil/|refused 8 sheet 49 7
@H|refused 8 sheet 49 7
@neg(A)=A/A=A/|refused 8 sheet 58 8
@neg(A)=A/#999999=A/|refused 8 sheet 58 8
@neg(A)=A/no=A/|refused 4 text 58 8
@neg(A)=A//|refused 3 text 58 8
@neg(A)=A//nil=nil/|refused 3 text 58 8
@neg(A)=A/./|refused 1 text 58 8
the left side
@neg(?)=nil/|refused 1 text 53 7
@neg?/|refused 1 text 52 7
@nil?=nil/|refused 1 text 52 7
@both(A,B;C)=A/|refused 1 text 57 7
@neg(#01)=nil/|refused 2 text 53 7
@neg(007)=nil/|refused 2 text 53 7
@neg#=nil/|refused 2 text 52 7
@neg07=nil/|refused 4 text 49 7
@nil 07=nil/|refused 3 text 52 7
@nil#01=nil/|refused 2 text 52 7
@both(A,#1000000)=A/|refused 2 text 56 7
@neg(7)=nil/|refused 3 text 53 7
@neg()=nil/|refused 3 text 53 7
@neg(=nil/|refused 3 text 53 7
@neg( A)=A/|refused 3 text 53 7
@neg(A )=A/|refused 3 text 54 7
@both(A, B)=A/|refused 3 text 56 7
@neg(-)=A/|refused 3 text 53 7
@neg(A(B))=A/|refused 3 text 54 7
@neg(#7(A))=A/|refused 3 text 55 7
@neg(A=A/|refused 3 text 54 7
@both(A=A/|refused 3 text 55 7
@neg(A/|refused 3 text 54 7
@both(A/|refused 3 text 55 7
@neg(|refused 3 text 53 7
@neg(A|refused 3 text 54 7
@both(A|refused 3 text 55 7
@neg(A)|refused 3 text 55 7
@neg(A)/|refused 3 text 55 7
@neg(A))=A/|refused 3 text 55 7
@neg(A),=A/|refused 3 text 55 7
@neg(A)(=A/|refused 3 text 55 7
@neg(A)nil/|refused 3 text 55 7
@neg(A) =A/|refused 3 text 55 7
@nil|refused 3 text 52 7
@nil/|refused 3 text 52 7
@nil)=nil/|refused 3 text 52 7
@nil,nil=nil/|refused 3 text 52 7
@nilA=nil/|refused 3 text 52 7
@neg(no)=nil/|refused 4 text 53 7
@both(A,neg(rules))=A/|refused 4 text 60 7
@neg|refused 5 text 49 7
@neg/|refused 5 text 49 7
@neg=nil/|refused 5 text 49 7
@neg A=nil/|refused 5 text 49 7
@negA=nil/|refused 5 text 49 7
@neg,=nil/|refused 5 text 49 7
@nil()=nil/|refused 5 text 49 7
@nil(A)=A/|refused 5 text 49 7
@neg(A,B)=A/|refused 5 text 49 7
@both(A)=A/|refused 5 text 49 7
@both(A,B,C)=A/|refused 5 text 49 7
@both(neg(A,B),C)=A/|refused 5 text 54 7
@both(both(A),B)=A/|refused 5 text 54 7
@both(A,neg)=A/|refused 5 text 56 7
@both(A,nil(B))=A/|refused 5 text 56 7
@neg(A)=A/both(A)=A/|refused 5 text 58 8
@both(A,A)=A/|refused 9 sheet 56 7
@both(A,A|refused 9 sheet 56 7
@both(A,A(|refused 9 sheet 56 7
@both(neg(A),neg(A))=A/|refused 9 sheet 65 7
@both(H,both(B,H))=A/|refused 9 sheet 63 7
@neg(A)=A/both(A,A)=A/|refused 9 sheet 65 8
the right side
@neg(A)=|refused 3 text 56 7
@neg(A)=/|refused 3 text 56 7
@neg(A)==A/|refused 3 text 56 7
@neg(A)= A/|refused 3 text 56 7
@neg(A)=7/|refused 3 text 56 7
@neg(A)=-/|refused 3 text 56 7
@neg(A)=(A)/|refused 3 text 56 7
@neg(A)=A|refused 3 text 57 7
@neg(A)=A /|refused 3 text 57 7
@neg(A)=A,/|refused 3 text 57 7
@neg(A)=A)/|refused 3 text 57 7
@neg(A)=A(/|refused 3 text 57 7
@neg(A)=A=A/|refused 3 text 57 7
@neg(A)=AA/|refused 3 text 57 7
@neg(A)=#1(/|refused 3 text 58 7
@neg(A)=nil,/|refused 3 text 59 7
@neg(A)=neg(A|refused 3 text 61 7
@neg(A)=neg(A/|refused 3 text 61 7
@neg(A)=neg(A)|refused 3 text 62 7
@neg(A)=A/nil=nil|refused 3 text 65 8
@neg(A)=?/|refused 1 text 56 7
@neg(A)=A?/|refused 1 text 57 7
@neg(A)=07/|refused 2 text 56 7
@neg(A)=#1000000/|refused 2 text 56 7
@neg(A)=#/|refused 2 text 56 7
@neg(A)=no/|refused 4 text 56 7
@neg(A)=both(A,foo)/|refused 4 text 63 7
@neg(A)=neg|refused 5 text 56 7
@neg(A)=neg/|refused 5 text 56 7
@neg(A)=neg=A/|refused 5 text 56 7
@neg(A)=nil(/|refused 5 text 56 7
@neg(A)=neg(A,A)/|refused 5 text 56 7
@neg(A)=both(A)/|refused 5 text 56 7
@neg(A)=both(A,neg(A,A))/|refused 5 text 63 7
@neg(A)=B/|refused 10 sheet 56 7
@neg(A)=B|refused 10 sheet 56 7
@nil=A/|refused 10 sheet 53 7
@nil=neg(A)/|refused 10 sheet 57 7
@neg(neg(A))=neg(B)/|refused 10 sheet 65 7
@both(A,B)=both(B,C)/|refused 10 sheet 66 7
@neg(A)=A/neg(B)=A/|refused 10 sheet 65 8
a name in a rule ends behind its twelfth byte
abcdefghijkl/0/0/-/-/-/rules/abcdefghijklm=#1/|refused 3 text 41 7
abcdefghijkl/1/0/1/-/-/rules/abcdefghijklm=#1/|refused 5 text 29 7
abcdefghijkl/1/0/1/-/-/rules/abcdefghijkl(abcdefghijklm)=#1/|refused 5 text 42 7
rules
@{32:nil=nil/}|@{32:; nil=nil}
@{33:nil=nil/}|refused 6 text 305 39
@{32:nil=nil/}#1=nil/|refused 6 text 305 39
@{32:nil=nil/}A=nil/|refused 6 text 305 39
@{32:nil=nil/}neg|refused 6 text 305 39
@{32:nil=nil/}foo=nil/|refused 4 text 305 39
@{32:nil=nil/}/|refused 3 text 305 39
@{32:nil=nil/}=/|refused 3 text 305 39
@{32:nil=nil/}7/|refused 3 text 305 39
@{32:nil=nil/}#01=nil/|refused 2 text 305 39
@{32:nil=nil/}?|refused 1 text 305 39
levels
@{15:neg(}A{15:)}=A/|@; {15:neg(}A{15:)}=A
@{15:neg(}nil{15:)}=nil/|@; {15:neg(}nil{15:)}=nil
@{16:neg(}A{16:)}=A/|refused 6 text 113 7
@{16:neg(}nil{16:)}=nil/|refused 6 text 113 7
@{16:neg(}#1{16:)}=nil/|refused 6 text 113 7
@{17:neg(}A{17:)}=A/|refused 6 text 113 7
@{16:neg(}neg)|refused 6 text 113 7
@{16:neg(}no|refused 4 text 113 7
@{16:neg(})|refused 3 text 113 7
@{16:neg(}|refused 3 text 113 7
@{16:neg(}7|refused 3 text 113 7
@{16:neg(}#01|refused 2 text 113 7
@{16:neg(}?|refused 1 text 113 7
@{15:neg(}neg)|refused 5 text 109 7
@both(A,{15:neg(}A{15:)})=A/|refused 6 text 116 7
@both(A,{14:neg(}A{14:)})=A/|refused 9 sheet 112 7
@both({14:neg(}A{14:)},{14:neg(}B{14:)})=A/|@; both({14:neg(}A{14:)},{14:neg(}B{14:)})=A
@neg(A)={15:neg(}A{15:)}/|@; neg(A)={15:neg(}A{15:)}
@neg(A)={16:neg(}A{16:)}/|refused 6 text 120 7
@neg(A)={16:neg(}B{16:)}/|refused 6 text 120 7
@neg(A)={16:neg(}no{16:)}/|refused 4 text 120 7
@neg(A)={15:neg(}B{15:)}/|refused 10 sheet 116 7
@{15:neg(}A{15:)}={15:neg(}A{15:)}/nil=#1/|@; {15:neg(}A{15:)}={15:neg(}A{15:)}; nil=#1
symbols
@{15:both(}A{14:,#1)},neg(#1))=A/|@; {15:both(}A{14:,#1)},neg(#1))=A
@{15:both(}A{14:,#1)},neg(neg(#1)))=A/|refused 6 text 190 7
@{15:both(}A{14:,#1)},neg(neg(A)))=A/|refused 6 text 190 7
@{15:both(}A{14:,#1)},neg(neg(nil|refused 6 text 190 7
@{15:both(}A{14:,#1)},neg(neg(no|refused 4 text 190 7
@{15:both(}A{14:,#1)},neg(neg()|refused 3 text 190 7
@{15:both(}A{14:,#1)},neg(neg(|refused 3 text 190 7
@{15:both(}A{14:,#1)},neg(neg(#01|refused 2 text 190 7
@{15:both(}A{14:,#1)},neg(neg(;|refused 1 text 190 7
@{15:both(}A{14:,#1)},neg(neg,|refused 5 text 186 7
@{15:both(}A{14:,#1)},neg(A))=A/|refused 9 sheet 186 7
@{14:both(neg(#1),}both(neg(|refused 6 text 188 7
@neg(A)={15:both(}A{14:,A)},neg(A))/|@; neg(A)={15:both(}A{14:,A)},neg(A))
@neg(A)={15:both(}A{14:,A)},neg(neg(A)))/|refused 6 text 183 7
@neg(A)={15:both(}A{14:,A)},neg(neg(B)))/|refused 6 text 183 7
@neg(A)={15:both(}A{14:,A)},neg(neg(no|refused 4 text 183 7
@neg(A)={15:both(}A{14:,A)},neg(B))/|refused 10 sheet 179 7
@{15:both(}A{14:,#1)},neg(#1))={15:both(}A{14:,A)},neg(A))/nil=#1/|@; {15:both(}A{14:,#1)},neg(#1))={15:both(}A{14:,A)},neg(A)); nil=#1
bytes
@{32719:?}|refused 1 text 49 7
@{32720:?}|refused 6 text 0 0
@{32719:7}|refused 3 text 49 7
{32768:a}|refused 3 text 12 0
{32769:a}|refused 6 text 0 0
{32769:?}|refused 6 text 0 0
{32768:/}|refused 3 text 0 0
{32769:/}|refused 6 text 0 0
@{4092:nil=nil/}|refused 6 text 0 0";

// What the short-hands of the texts stand for.
pub const HOUSE: &str = "nil neg both/0 1 2/1 1 3/- 2 2/- - 1/- - -/";

pub const NAMES: &str = "a b c d e f g h i j k l m n o p q r s t u v w x y z a1 b1 c1 d1 e1 f1";

// The operators of HOUSE as they are read.
pub const HOUSE_OPERATORS: &str = "nil 0 1:--- 0:111, neg 1 1:2-- 0:111, both 2 3:21- 0:111";

// A sheet that fills all that there is: 32 operators with their largest values in both weighings, and 32 rules.
pub const FULL: &str =
    "%/3{31: 3}/100{31: 100}/4{31: 4}/4{31: 4}/4{31: 4}/100{31: 100}/4{31: 4}/4{31: 4}/4{31: 4}/rules/{32:a(A,B,C)=B/}";

// A sheet, and what is read of each of its fronts, the empty one first and the whole sheet last.
pub const LONG: &str = "a b/0 2/7 0/- 4/- 1/- -/rules/b(a,A)=A/";

pub const FRONTS: &str = "refused 3 text 0 0
refused 3 text 1 0
refused 3 text 2 0
refused 3 text 3 0
refused 3 text 4 1
refused 3 text 5 1
refused 3 text 6 1
refused 3 text 7 1
refused 3 text 8 2
refused 3 text 9 2
refused 3 text 10 2
refused 3 text 11 2
refused 3 text 12 3
refused 3 text 13 3
refused 3 text 14 3
refused 3 text 15 3
refused 3 text 16 4
refused 3 text 17 4
refused 3 text 18 4
refused 3 text 19 4
refused 3 text 20 5
refused 3 text 21 5
refused 3 text 22 5
refused 3 text 23 5
refused 3 text 24 6
refused 3 text 24 6
refused 3 text 24 6
refused 3 text 24 6
refused 3 text 24 6
refused 3 text 29 6
a 0 7:--- 0:111, b 2 0:41- 0:111
refused 5 text 30 7
refused 3 text 32 7
refused 3 text 33 7
refused 3 text 34 7
refused 3 text 35 7
refused 3 text 36 7
refused 3 text 37 7
refused 3 text 38 7
a 0 7:--- 0:111, b 2 0:41- 0:111; b(a,A)=A";
