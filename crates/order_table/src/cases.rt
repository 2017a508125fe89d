// Rules, and how orders orient them, worked out by hand. A sheet begins with a caption, two bars and its lines up to the rules,
// with '/' for a line end. Then, one on a line: a rule, in which {N:PART} is PART so many times; the weights of its left and its
// right side by the first weighing, and by the second, constants first; how the default order orients it; and how the order by
// symbols does. An empty line parts two sheets.
pub const CASES: &str =
    "nil is 1, neg(A) is 1+2A, both(A,B) is 3+2A+B||nil neg both/0 1 2/1 1 3/- 2 2/- - 1/- - -/rules/
neg(neg(A))=A|3+4A 0+1A|0+1A 0+1A|falls|falls
neg(nil)=nil|3 1|0 0|falls|falls
neg(both(A,B))=both(neg(A),neg(B))|7+4A+2B 6+4A+2B|0+1A+1B 0+1A+1B|falls|no
both(nil,A)=A|5+1A 0+1A|0+1A 0+1A|falls|falls
both(A,nil)=A|4+2A 0+1A|0+1A 0+1A|falls|falls
both(both(A,B),C)=both(A,both(B,C))|9+4A+2B+1C 6+2A+2B+1C|0+1A+1B+1C 0+1A+1B+1C|falls|holds
both(A,B)=both(B,A)|3+2A+1B 3+1A+2B|0+1A+1B 0+1A+1B|no|holds
neg(A)=both(A,A)|1+2A 3+3A|0+1A 0+2A|no|no
both(A,B)=neg(A)|3+2A+1B 1+2A|0+1A+1B 0+1A|falls|falls
neg(nil)=neg(neg(nil))|3 7|0 0|no|no
neg(#5)=nil|1 1|0 0|holds|falls
both(#1,#2)=neg(nil)|3 3|0 0|holds|falls
neg(A)=#9|1+2A 0|0+1A 0|falls|falls
nil=#0|1 0|0 0|falls|holds
both(nil,nil)=neg(neg(nil))|6 7|0 0|no|holds
neg(both(A,nil))=both(nil,neg(A))|9+4A 6+2A|0+1A 0+1A|falls|holds
both(A,both(B,C))=both(C,both(B,A))|6+2A+2B+1C 6+1A+2B+2C|0+1A+1B+1C 0+1A+1B+1C|no|holds

p(A) is 1+A, q(A) is 1+A; then 2+A and 1+A||p q/1 1/1 1/1 1/- -/- -/2 1/1 1/- -/- -/rules/
p(A)=q(A)|1+1A 1+1A|2+1A 1+1A|falls|holds
q(q(A))=p(A)|2+1A 1+1A|2+1A 2+1A|falls|falls
q(A)=p(A)|1+1A 1+1A|1+1A 2+1A|no|holds
p(q(A))=q(p(A))|2+1A 2+1A|3+1A 3+1A|holds|holds
p(p(A))=q(q(A))|2+1A 2+1A|4+1A 2+1A|falls|holds
p(A)=p(A)|1+1A 1+1A|2+1A 2+1A|holds|holds
q(A)=A|1+1A 0+1A|1+1A 0+1A|falls|falls
p(#3)=q(#999999)|1 1|2 1|falls|holds

the same without the second weighing||p q/1 1/1 1/1 1/- -/- -/rules/
p(A)=q(A)|1+1A 1+1A|0+1A 0+1A|holds|holds
q(q(A))=p(A)|2+1A 1+1A|0+1A 0+1A|falls|falls

a is 3, b is 2, c is 1||a b c/0 0 0/3 2 1/- - -/- - -/- - -/rules/
a=b|3 2|0 0|falls|holds
a=c|3 1|0 0|falls|holds
c=a|1 3|0 0|no|holds
b=b|2 2|0 0|holds|holds

t(A,B,C) is 7+2A+3B+4C, z is 0; then 5+4A+B+C and 1||t z/3 0/7 0/2 -/3 -/4 -/5 1/4 -/1 -/1 -/rules/
t(A,B,C)=t(B,C,A)|7+2A+3B+4C 7+4A+2B+3C|5+4A+1B+1C 5+1A+4B+1C|no|holds
t(A,B,C)=A|7+2A+3B+4C 0+1A|5+4A+1B+1C 0+1A|falls|falls
t(A,z,z)=z|7+2A 0|7+4A 1|falls|falls
t(z,A,z)=t(A,z,z)|7+3A 7+2A|10+1A 7+4A|no|holds
t(z,z,A)=t(z,A,z)|7+4A 7+3A|10+1A 10+1A|holds|holds
t(t(A,B,C),D,E)=t(A,B,C)|21+4A+6B+8C+3D+4E 7+2A+3B+4C|25+16A+4B+4C+1D+1E 5+4A+1B+1C|falls|falls
t(A,B,H)=t(A,A,A)|7+2A+3B+4H 7+9A|5+4A+1B+1H 5+6A|no|no
t(#1,#2,#3)=z|7 0|5 1|falls|falls
t(F,G,H)=t(z,z,z)|7+2F+3G+4H 7|5+4F+1G+1H 11|no|holds

f(A) is 100+4A, g(A) is 4A, h(A,B,C) is 100+4A+4B+4C, n is 100; then 4A, 100+A, 4A+4B+4C and 0||f g h n/1 1 3 0/100 0 100 100/4 4 4 -/- - 4 -/- - 4 -/0 100 0 0/4 1 4 -/- - 4 -/- - 4 -/rules/
{15:f(}A{15:)}={15:g(}A{15:)}|35791394100+1073741824A 0+1073741824A|0+1073741824A 1500+1A|falls|holds
{15:g(}A{15:)}={15:f(}A{15:)}|0+1073741824A 35791394100+1073741824A|1500+1A 0+1073741824A|no|holds
{15:f(}n{15:)}={14:f(}n{14:)}|143165576500 35791394100|0 0|falls|falls
{15:f(}A{15:)}={14:f(}n{14:)}|35791394100+1073741824A 35791394100|0+1073741824A 0|holds|falls
{14:f(}g(A){14:)}={15:f(}A{15:)}|8947848500+1073741824A 35791394100+1073741824A|26843545600+268435456A 0+1073741824A|no|holds
{15:f(}A{15:)}={14:f(}g(A){14:)}|35791394100+1073741824A 8947848500+1073741824A|0+1073741824A 26843545600+268435456A|falls|holds
h(A,B,C)={13:f(}h(h(A,A,A),h(A,A,A),h(A,A,A)){13:)}|100+4A+4B+4C 89478485300+9663676416A|0+4A+4B+4C 0+9663676416A|no|no
{13:f(}h(h(A,B,C),h(D,E,F),h(G,H,n)){13:)}=n|196852667700+1073741824A+1073741824B+1073741824C+1073741824D+1073741824E+1073741824F+1073741824G+1073741824H 100|0+1073741824A+1073741824B+1073741824C+1073741824D+1073741824E+1073741824F+1073741824G+1073741824H 0|falls|falls
{15:f(}A{15:)}={14:f(}h(A,#0,#0){14:)}|35791394100+1073741824A 35791394100+1073741824A|0+1073741824A 0+1073741824A|holds|no
{14:f(}g(n){14:)}={15:f(}#1{15:)}|116322030900 35791394100|26843545600 0|falls|holds";
