//! What is true of every record. Each function states it by its clauses and does nothing.
ghost use Rattle.std.specs.Prelude.{◌≡◌, ◌<◌, ◌^◌, Ok, length};
ghost use Rattle.run_model.specs.Bytes.{StandsAt};
ghost use Rattle.run_record.specs.Records.{Held, IsHeld};
ghost use Rattle.run_record.specs.RecordBytes.{record_bytes};
ghost use Rattle.run_record.specs.RecordLines.{record_of};
ghost use Rattle.run_record.specs.RecordText.{record_text};

/// No two records stand at the front of the same bytes. So two records with the same bytes are the same, and no
/// record's bytes begin another's. Does nothing, and takes no memory.
pub fn one_record_at_front(bytes: &[u8])
    ensures { (a b : Held) → IsHeld a → IsHeld b
        → StandsAt (record_bytes a) bytes.now 0 → StandsAt (record_bytes b) bytes.now 0 → a ≡ b }
{
    let _bytes = bytes;
}

/// The text that is printed of a record is read as that record: `print` and then `parse_text` give it back. Does
/// nothing, and takes no memory.
pub fn printed_is_read()
    ensures { (held : Held) → IsHeld held → length held.entries < 2 ^ 64 → record_of (record_text held) ≡ Ok held }
{}
