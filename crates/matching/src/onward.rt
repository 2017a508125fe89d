ghost use Rattle.fixed_vec.specs.FixedVec.{content};
ghost use Rattle.matching.specs.Onward.{Goes};

use fixed_vec::FixedVec;

// Where reading goes on behind a node: at its first argument, with the next sibling put off; or at the next sibling; or at the one that
// was put off last.
pub fn onward<const N: usize>(
    first: Option<u16>,
    next: Option<u16>,
    later: &mut FixedVec<u16, N>,
) -> Option<u16>
    ensures { Goes N first next (content later.old) (content later.new) result }
{
    if first.is_none() {
        if next.is_none() {
            return later.pop();
        }
        return next;
    }
    if let Some(sibling) = next {
        let _ = later.push(sibling);
    }
    first
}
