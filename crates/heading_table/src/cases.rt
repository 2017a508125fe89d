// The two lines that head a sheet and what is read of them, worked out by hand: a text, with '/' for a line end, a bar,
// and the operators with their arities, or the refusal.
pub const CASES: &str = "nil/0/|nil 0
nil neg both/0 1 2/|nil 0 neg 1 both 2
a b c d/3 2 1 0/|a 3 b 2 c 1 d 0
abcdefghijkl/3/|abcdefghijkl 3
rules/1/|rules 1
x1 x2/0 0/|x1 0 x2 0
|refused 3 text 0 0
/|refused 3 text 0 0
 nil/0/|refused 3 text 0 0
nil|refused 3 text 3 0
nil/|refused 3 text 4 1
nil/0|refused 3 text 5 1
nil neg/0 1|refused 3 text 11 1
nil /0/|refused 3 text 4 0
nil  neg/0 1/|refused 3 text 4 0
nil,neg/0 1/|refused 3 text 3 0
nil(neg/0 1/|refused 3 text 3 0
A/0/|refused 3 text 0 0
nil A/0 0/|refused 3 text 4 0
7/0/|refused 3 text 0 0
#7/0/|refused 3 text 0 0
-/0/|refused 3 text 0 0
abcdefghijklm/0/|refused 3 text 12 0
nil/-/|refused 3 text 4 1
nil/x/|refused 3 text 4 1
nil/ 0/|refused 3 text 4 1
nil//|refused 3 text 4 1
nil/#1/|refused 3 text 4 1
nil/0 /|refused 3 text 5 1
nil/0 1/|refused 3 text 5 1
nil/0-/|refused 3 text 5 1
nil neg/0/|refused 3 text 9 1
nil neg/0  1/|refused 3 text 10 1
nil neg/0,1/|refused 3 text 9 1
nil neg/0 1 2/|refused 3 text 11 1
nil/0/x|refused 3 text 6 2
nil/0//|refused 3 text 6 2
nil nil/0 0/|refused 7 sheet 4 0
nil neg nil/0 1 0/|refused 7 sheet 8 0
nil neg nil?/0 1 0/|refused 7 sheet 8 0
Nil/0/|refused 1 text 0 0
nil?/0/|refused 1 text 3 0
nil ?/0/|refused 1 text 4 0
nil/?/|refused 1 text 4 1
nil/0?|refused 1 text 5 1
07/0/|refused 2 text 0 0
#07/0/|refused 2 text 0 0
nil 07/0/|refused 2 text 4 0
nil/4/|refused 2 text 4 1
nil/01/|refused 2 text 4 1
nil/10/|refused 2 text 4 1
nil/123456789012345678901234567890/|refused 2 text 4 1
nil/#/|refused 2 text 4 1
nil/0#01|refused 2 text 5 1";

// Thirty-two names and one more.
pub const NAMES: &str =
    "n1 n2 n3 n4 n5 n6 n7 n8 n9 n10 n11 n12 n13 n14 n15 n16 n17 n18 n19 n20 n21 n22 n23 n24 n25 n26 n27 n28 n29 n30 n31 n32 n33";
