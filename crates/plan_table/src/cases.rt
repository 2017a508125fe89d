// Rules and their plans, worked out by hand. A sheet begins with a caption, two bars, its lines up to the rules, with '/' for a line
// end, two bars, and for each operator the numbers of the rules that begin with it. Then, one on a line, each rule and its plan:
// what is to stand on the left behind the first symbol, '_' for anything; what is made on the right, with '>' before the number on
// the left of what is moved, and '=' before that of what is copied, '(' behind what has arguments and ',' behind what has a next
// sibling; the numbers on the right of operators behind the first symbol, arguments first; those on the left of what is dropped, and
// of what is copied; and how many symbols of each side are no variables. An empty line parts two
// sheets.
pub const CASES: &str =
    "nil, neg and both||nil neg both/0 1 2/1 1 3/- 2 2/- - 1/- - -/rules/||- 0,1,2 3,4,5,6
neg(neg(A))=A|( neg( _|>1||||2 0
neg(nil)=nil|( nil|nil||||2 1
neg(both(A,B))=both(neg(A),neg(B))|( both( _, _|both( neg(, >1 neg( >2|0 2|||2 3
both(nil,A)=A|( nil, _|>1||||2 0
both(A,nil)=A|( _, nil|>0||||2 0
both(both(A,B),C)=both(A,both(B,C))|( both(, _, _ _|both( >1, both( >2, >3|1|||2 2
both(A,B)=both(B,A)|( _, _|both( >1, >0||||1 1

copies and what is dropped||nil neg both/0 1 2/1 1 3/- 2 2/- - 1/- - -/rules/||1,2,3 0,5,7 4,6,8
neg(A)=both(A,A)|( _|both( >0, =0|||0|1 1
nil=#0||#0||||1 1
nil=nil||nil||||1 1
nil=both(nil,neg(nil))||both( nil, neg( nil|0 2 1|||1 4
both(A,B)=neg(A)|( _, _|neg( >0||1||1 1
neg(A)=#999999|( _|#999999||0||1 1
both(A,B)=both(both(A,B),both(B,A))|( _, _|both( both(, >0, >1 both( =1, =0|0 3||1 0|1 3
neg(both(A,neg(B)))=both(B,both(B,neg(B)))|( both( _, neg( _|both( >3, both( =3, neg( =3|3 1|1|3 3|3 3
both(#12,B)=B|( #12, _|>1||||2 0

three arguments||z t/0 3/0 7/- 2/- 3/- 4/rules/||5 0,1,2,3,4
t(H,A,B)=A|( _, _, _|>1||0 2||1 0
t(A,B,C)=t(t(C,#7,z),A,A)|( _, _, _|t( t(, >2, #7, z >0, =0|3 0|1|0|1 4
t(t(F,G,z),#1,z)=t(G,G,G)|( t(, _, _, z #1, z|t( >2, =2, =2||1|2 2|5 1
t(z,t(A,B,D),C)=t(t(C,D,z),t(B,z,A),z)|( z, t(, _, _, _ _|t( t(, >5, >4, z t(, >3, z, >2 z|3 0 6 4 8|||3 6
t(A,t(B,t(C,D,E),F),G)=z|( _, t(, _, t(, _, _, _ _ _|z||0 2 4 5 6 7 8||3 1
z=t(z,z,z)||t( z, z, z|0 1 2|||1 4

32 symbols||nil neg both/0 1 2/1 1 3/- 2 2/- - 1/- - -/rules/||- 0 -
neg(both(both(both(both(A,B),both(C,D)),both(both(E,F),both(G,H))),both(both(both(#0,#0),both(#0,#0)),both(both(#0,#0),both(#0,#0)))))=A|( both( both(, both(, both(, _, _ both( _, _ both( both(, _, _ both( _, _ both( both(, both(, #0, #0 both( #0, #0 both( both(, #0, #0 both( #0, #0|>4||5 7 8 11 12 14 15||24 0

no rules||nil neg both/0 1 2/1 1 3/- 2 2/- - 1/- - -/rules/||- - -";
