ghost use Rattle.std.specs.Prelude.{IfOk, IfErr};
ghost use Rattle.commit_journal.specs.Opening.{IsOpened, IsAttached, IsNotAttached};

use crate::flight::Flight;
use crate::journal::Journal;
use crate::opening::open_files;
use crate::why::AttachWhy;
use disk_model::Disk;
use record_code::Payloads;
use std::alloc::Global;

/// Why two files can't be opened, with the disks.
#[derive(Drop)]
pub struct AttachFault<D> {
    pub why: AttachWhy,
    pub a: D,
    pub b: D,
}

impl<D: Disk> Journal<D> {
    /// Opens the journal of two files, and gives its records. It leaves the contents as they were.
    pub fn attach(
        alloc: Global,
        a: D,
        b: D,
        limit: u64,
    ) -> Result<(Journal<D>, Payloads), AttachFault<D>>
        ensures ok { IfOk result (λ opened. IsOpened (D.view a) (D.view b) limit opened.0) }
        ensures read { IfOk result (λ opened. IsAttached (D.view a) (D.view b) opened.1 opened.0) }
        ensures err { IfErr result (λ fault.
            IsNotAttached (D.view a) (D.view b) fault.why (D.view fault.a) (D.view fault.b)) }
    {
        let mut a = a;
        let mut b = b;
        match open_files(alloc, &mut a, &mut b) {
            Err(why) => Err(AttachFault { why, a, b }),
            Ok(opened) => {
                if opened.b_counts {
                    let journal = Journal {
                        counting: b,
                        other: a,
                        b_counts: true,
                        gate: opened.listed.gate,
                        generation: opened.generation,
                        flight: Flight::Nothing,
                        limit,
                        counting_calls: 0,
                        other_calls: 0,
                    };
                    Ok((journal, opened.listed.payloads))
                } else {
                    let journal = Journal {
                        counting: a,
                        other: b,
                        b_counts: false,
                        gate: opened.listed.gate,
                        generation: opened.generation,
                        flight: Flight::Nothing,
                        limit,
                        counting_calls: 0,
                        other_calls: 0,
                    };
                    Ok((journal, opened.listed.payloads))
                }
            }
        }
    }
}
