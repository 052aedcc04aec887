// What follows from the promises of any index.
ghost use Rattle.indexes.specs.Meeting.{Met};

use super::index::{Index, IndexFault};

// The picture to which a signature leads. Where it leads to none, it is entered and leads to the given picture.
pub fn find_or_enter<I: Index>(
    index: &mut I,
    op: u16,
    row: &[u16],
    picture: u16,
) -> Result<Option<u16>, IndexFault>
    ensures { Met op row.now picture (I.leads index.old) (I.leads index.new) result }
{
    match index.query(op, row) {
        Some(q) => Ok(Some(q)),
        None => {
            index.enter(op, row, picture)?;
            Ok(None)
        }
    }
}
