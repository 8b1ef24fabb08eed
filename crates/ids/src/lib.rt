// Ids: how two of them stand, whether those of a table's records rise, and where one stands among them or belongs.
// `order`: the order of ids.
#![tactic(auto)]

mod order;

ghost use Rattle.std.specs.Prelude.{◌≡◌, true, map, ◌+◌, ◌*◌, ◌≤◌, length, take, drop};
ghost use Rattle.rules.specs.Ids.{rising};
ghost use Rattle.rules.specs.Records.{records, id_of};
ghost use Rattle.ids.specs.Search.{find_in};

pub use order::{compare, ids_rise, is_below};
use std::cmp::Ordering;

// The id that stands at `at`.
pub fn id_at(table: &[u8], at: usize) -> &[u8; 32]
    requires { at + 32 ≤ length table.now }
    ensures { result.now ≡ take 32 (drop at table.now) }
{
    let Ok(id) = <&[u8; 32]>::try_from(&table[at..at + 32]) else {
        unreachable!()
    };
    id
}

// Where `id` stands among the first `used` records (`Ok`), or where it belongs (`Err`). Where the first words of two ids differ they decide.
// Searched by hand: how many bytes a record has is told by the board at run time, and a slice of records would need it as a constant.
pub fn find(table: &[u8], size: usize, used: usize, id: &[u8; 32]) -> Result<usize, usize>
    requires le_size { (32 ≤ size) × (used * size ≤ length table.now) }
    requires table_value { rising (map id_of (records size used table.now)) ≡ true }
    ensures { result ≡ find_in id.now (map id_of (records size used table.now)) }
{
    let first = mem::u32_be(id, 0);
    let mut lo = 0;
    let mut hi = used;
    while lo < hi {
        let mid = lo + (hi - lo) / 2;
        let at = mid * size;
        let word = mem::u32_be(table, at);
        if word < first {
            lo = mid + 1;
        } else if first < word {
            hi = mid;
        } else {
            match compare(table, at, id, 0) {
                Ordering::Less => {
                    lo = mid + 1;
                }
                Ordering::Equal => {
                    return Ok(mid);
                }
                Ordering::Greater => {
                    hi = mid;
                }
            }
        }
    }
    Err(lo)
}
