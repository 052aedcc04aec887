ghost use Rattle.std.specs.Prelude.{◌≡◌, IfSome};
ghost use Rattle.theory.specs.Sheet.{inputs};
ghost use Rattle.congruence.specs.Drawn.{sheet};

use congruence::{Join, Picture};

// The inputs of picture p, if there is one.
pub fn inputs_of(pictures: &[Picture], p: u16) -> Option<&[u16]>
    ensures { IfSome result (λ xs. xs.now ≡ inputs (sheet pictures.now) p) }
{
    let place = (p as usize).checked_sub(1)?;
    let picture = pictures.get(place)?;
    Some(picture.inputs.as_slice())
}

// The inputs of both pictures of a join, if there are both.
pub fn inputs_of_both<'a>(pictures: &'a [Picture], join: &Join) -> Option<(&'a [u16], &'a [u16])>
    ensures { IfSome result (λ x. (x.0.now ≡ inputs (sheet pictures.now) join.now.left) × (x.1.now ≡ inputs (sheet pictures.now) join.now.right)) }
{
    Some((
        inputs_of(pictures, join.left)?,
        inputs_of(pictures, join.right)?,
    ))
}
