ghost use Rattle.std.specs.Prelude.{◌≡◌, ◌^◌, ◌<◌};
ghost use Rattle.tables.specs.State.{none};
ghost use Rattle.tables.specs.Encode.{encode};
ghost use Rattle.tables.specs.Settle.{settle};
ghost use Rattle.rules.specs.Rules.{boot_k, boot_on};
ghost use Rattle.rules.specs.Ran.{Ran};

use tables::Outcome;
use words::header_word::HeaderFields;
use words::slot_word::SlotFields;
use words::structure_word::StructureFields;
use words::{Line, Partition, Refusal, Rights, Slot};

// The root with its structure 0 and, in slot 0, an entry with all rights: it is open, since areas of 0, 0 have no line.
fn put_root(t: &mut [u64; 641], base: Line, end: Line)
    requires { (base.0 < 2 ^ 27) × (end.0 < 2 ^ 27) }
    ensures { t.new ≡ encode (settle (boot_k base.0 end.0) (λ p r. none)) }
{
    let root = Partition(0);
    writing::empty_table(t, base, end);
    writing::put_header(
        t,
        root,
        HeaderFields {
            present: true,
            parent: root,
            start: Line(0),
            end: Line(0),
        },
    );
    writing::put_structure(
        t,
        root,
        0,
        StructureFields {
            present: true,
            start: Line(0),
            end: Line(0),
        },
    );
    writing::put_entry(
        t,
        root,
        Slot(0),
        SlotFields {
            present: true,
            opened: true,
            rights: Rights {
                read: true,
                write: true,
                execute: true,
            },
            given: root,
            start: base,
            end,
            whole: false,
        },
    );
}

// Boot on a table that stands in an array: `boot` without its length and its copy.
pub fn boot_table(t: &mut [u64; 641], base: u64, end: u64) -> Outcome
    ensures { Ran (boot_on t.old base end) t.old result t.new }
{
    tables::sized(t);
    if base >= end {
        return Err(Refusal::WrongLine);
    }
    if end >= 0x800_0000 {
        return Err(Refusal::WrongLine);
    }
    put_root(t, Line(base as u32), Line(end as u32));
    Ok((0, 0))
}
