ghost use Rattle.std.specs.Prelude.{◌≡◌, ◌≤◌, true, map, vec_len, vec_capacity};
ghost use Rattle.indexes.specs.Meaning.{apart};
ghost use Rattle.indexes.specs.Records.{lead_of};

use super::record::Record;

// The index that is a plain list of records, each signature once. The rules want a plain list beside the chained index,
// so it is neither sorted nor a map.
#[derive(Drop)]
pub struct Plain {
    records: Vec<Record>,
    ghost room: { 1024 ≤ vec_capacity records },
    ghost short: { vec_len records ≤ 1024 },
    ghost once: { apart (map lead_of records.items) ≡ true },
}

pub mod calls;
