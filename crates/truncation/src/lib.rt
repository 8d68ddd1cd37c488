// A pack that was cut off: its first n bytes, checked and scanned. Where n is above its length, these are all of it.
#![tactic(auto)]

ghost use Rattle.std.specs.Prelude.{◌≡◌, ◌≤◌, length, take};
ghost use Rattle.refusals.specs.Limit.{pack_limit};
ghost use Rattle.pack.specs.Reading.{whole, reading, outcome, outcome_of};
ghost use Rattle.pack.specs.Scan.{scanned_of, scanned, list_after};
ghost use Rattle.truncation.specs.Answers.{CheckedCut, ScannedCut};

use pack::{Entry, Fault, ScanFault};

pub fn check_front(pack: &[u8], n: usize) -> Result<usize, Fault>
    ensures { (outcome_of result ≡ outcome (reading pack_limit (take n pack.now)))
        × ((reading pack_limit pack.now).ending ≡ whole → n ≤ length pack.now
        → CheckedCut (reading pack_limit pack.now).entries n (outcome_of result)) }
{
    pack::check(slices::front(pack, n))
}

// One entry a record, in order; entries after those keep their content, and on a refusal all do.
pub fn scan_front(pack: &[u8], n: usize, list: &mut [Entry]) -> Result<usize, ScanFault>
    ensures { (scanned_of result ≡ scanned (reading pack_limit (take n pack.now)) (length list.old))
        × ((list.new ≡ list_after (reading pack_limit (take n pack.now)) list.old)
        × ((reading pack_limit pack.now).ending ≡ whole → n ≤ length pack.now
        → ScannedCut (reading pack_limit pack.now).entries n list.old (scanned_of result) list.new)) }
{
    pack::scan(slices::front(pack, n), list)
}
