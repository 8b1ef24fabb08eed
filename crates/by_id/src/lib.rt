// Records by their id: a pending record goes.
#![tactic(auto)]

ghost use Rattle.std.specs.Prelude.{◌≡◌, true, length};
ghost use Rattle.rules.specs.Records.{sound_table};
ghost use Rattle.rules.specs.Board.{board_of, pending_most};
ghost use Rattle.rules.specs.Estimator.{without};
ghost use Rattle.rules.specs.Memory.{pending_records, lay_pending};

use ids::find;
use kinds::Horizon;
use table::remove;

// The pending record of the id goes, if there is one. The answer is how many are left, which is what the caller goes on with also where there is none.
pub fn forget(pending: &mut [u8], used: usize, id: &[u8; 32], on: Horizon) -> usize
    requires pending_value { sound_table (board_of on).table.size pending_most used pending.old ≡ true }
    ensures value { result ≡ length (without id.now (pending_records (board_of on) used pending.old)) }
    ensures pending_after { pending.new ≡ lay_pending (board_of on) (without id.now (pending_records (board_of on) used pending.old)) pending.old }
{
    let size = boards::record_size(on);
    match find(pending, size, used, id) {
        Ok(i) => {
            remove(pending, size, used, i);
            used - 1
        }
        Err(_) => used,
    }
}
