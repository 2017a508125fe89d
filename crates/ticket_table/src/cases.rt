// The texts and what the program answers to them, worked out by hand: a text, a bar, the answer.
// Declared are nil, neg, both, mix, abcdefghijkl and x1y2, of arity 0, 1, 2, 3, 1 and 0.
pub const CASES: &str = "#0|ticket 1 #0
#7|ticket 1 #7
#10|ticket 1 #10
#999999|ticket 1 #999999
nil|ticket 1 nil
neg(nil)|ticket 2 neg(nil)
neg(neg(neg(#5)))|ticket 4 neg(neg(neg(#5)))
both(nil,#1)|ticket 3 both(nil,#1)
both(both(#1,#2),neg(#3))|ticket 6 both(both(#1,#2),neg(#3))
mix(nil,#2,neg(#3))|ticket 5 mix(nil,#2,neg(#3))
mix(mix(#1,#2,#3),both(nil,nil),nil)|ticket 9 mix(mix(#1,#2,#3),both(nil,nil),nil)
abcdefghijkl(nil)|ticket 2 abcdefghijkl(nil)
x1y2|ticket 1 x1y2
#1000000|refused 2 text 0 0
#9999999999999999999999|refused 2 text 0 0
#00|refused 2 text 0 0
#01|refused 2 text 0 0
#|refused 2 text 0 0
neg(#)|refused 2 text 4 0
neg(#010)|refused 2 text 4 0
both(nil,#1000000)|refused 2 text 9 0
|refused 3 text 0 0
(|refused 3 text 0 0
)|refused 3 text 0 0
,|refused 3 text 0 0
=|refused 3 text 0 0
-|refused 3 text 0 0
 |refused 3 text 0 0
A|refused 3 text 0 0
H|refused 3 text 0 0
7|refused 3 text 0 0
0|refused 3 text 0 0
1234567|refused 3 text 0 0
neg()|refused 3 text 4 0
neg(,nil)|refused 3 text 4 0
neg(A)|refused 3 text 4 0
both(nil,B)|refused 3 text 9 0
both(nil,)|refused 3 text 9 0
both(nil,,nil)|refused 3 text 9 0
both(nil, nil)|refused 3 text 9 0
neg( nil)|refused 3 text 4 0
neg(nil) |refused 3 text 8 0
nil nil|refused 3 text 3 0
neg(nil))|refused 3 text 8 0
nil)|refused 3 text 3 0
nil,nil|refused 3 text 3 0
#7(|refused 3 text 2 0
#7(nil)|refused 3 text 2 0
neg(nil)(|refused 3 text 8 0
neg(nil)nil|refused 3 text 8 0
#7nil|refused 3 text 2 0
#7A|refused 3 text 2 0
nil=nil|refused 3 text 3 0
neg(nil|refused 3 text 7 0
neg(neg(nil)|refused 3 text 12 0
both(nil|refused 3 text 8 0
both(nil,|refused 3 text 9 0
mix(nil,nil|refused 3 text 11 0
ne|refused 4 text 0 0
nill|refused 4 text 0 0
x1y|refused 4 text 0 0
neg(foo)|refused 4 text 4 0
both(nil,neg(nol))|refused 4 text 13 0
foo(|refused 4 text 0 0
neg|refused 5 text 0 0
both|refused 5 text 0 0
both(nil,neg)|refused 5 text 9 0
neg,|refused 5 text 0 0
neg)|refused 5 text 0 0
neg nil|refused 5 text 0 0
neg=|refused 5 text 0 0
neg-|refused 5 text 0 0
neg#7|refused 5 text 0 0
negA|refused 5 text 0 0
nil(|refused 5 text 0 0
nil()|refused 5 text 0 0
neg(nil())|refused 5 text 4 0
both(#1,nil(|refused 5 text 8 0
neg(nil,nil)|refused 5 text 0 0
both(nil)|refused 5 text 0 0
both(nil,nil,nil)|refused 5 text 0 0
mix(nil,nil)|refused 5 text 0 0
mix(nil)|refused 5 text 0 0
mix(nil,nil,nil,nil)|refused 5 text 0 0
both(nil,neg(#7,nil))|refused 5 text 9 0
both(both(nil),nil)|refused 5 text 5 0
abcdefghijkl|refused 5 text 0 0
abcdefghijklm|refused 5 text 0 0
abcdefghijklm(nil)|refused 5 text 0 0
?|refused 1 text 0 0
Z|refused 1 text 0 0
I|refused 1 text 0 0
neg[nil]|refused 1 text 3 0
neg?|refused 1 text 3 0
nil?|refused 1 text 3 0
neg(?)|refused 1 text 4 0
neg(nil?|refused 1 text 7 0
nil.|refused 1 text 3 0
NIL|refused 1 text 0 0
both(nil;nil)|refused 1 text 8 0
007|refused 2 text 0 0
00|refused 2 text 0 0
neg#01|refused 2 text 3 0
neg#|refused 2 text 3 0
neg(007)|refused 2 text 4 0
neg(nil)#01|refused 2 text 8 0
neg(nil)#|refused 2 text 8 0
nil#1000000|refused 2 text 3 0";

// A ticket, and the number and place of the refusal of each of its fronts, the empty one first.
pub const LONG: &str = "both(neg(nil),mix(#12,x1y2,neg(#345678)))";

pub const FRONTS: [(u8, usize); 41] = [
    (3, 0),
    (4, 0),
    (4, 0),
    (4, 0),
    (5, 0),
    (3, 5),
    (4, 5),
    (4, 5),
    (5, 5),
    (3, 9),
    (4, 9),
    (4, 9),
    (3, 12),
    (3, 13),
    (3, 14),
    (4, 14),
    (4, 14),
    (5, 14),
    (3, 18),
    (2, 18),
    (3, 20),
    (3, 21),
    (3, 22),
    (4, 22),
    (4, 22),
    (4, 22),
    (3, 26),
    (3, 27),
    (4, 27),
    (4, 27),
    (5, 27),
    (3, 31),
    (2, 31),
    (3, 33),
    (3, 34),
    (3, 35),
    (3, 36),
    (3, 37),
    (3, 38),
    (3, 39),
    (3, 40),
];
