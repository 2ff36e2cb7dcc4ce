//! The pieces of a file, one after the other.
ghost use Rattle.std.specs.Prelude.{◌≡◌, ◌≢◌, ◌↔◌, ℕ, ◌+◌, ◌^◌, ◌<◌, ◌≤◌, List, [], length};
ghost use Rattle.std.specs.Prelude.{IfSome, OnOk, OnErr, IsTrue, IsFalse, Err};
ghost use Rattle.bounds_model.specs.Asks as asks;
ghost use Rattle.bnd_io.specs.Files.{Continues, CountsNoOpen, NoFault, KeepsOpen, ReadFailed, IsWhole, grown};
ghost use Rattle.bnd_io.specs.declared.loading.LoadFault.TheVariants as fault;
ghost use Rattle.point_text.specs.Keeping.{KeepsPoint};
ghost use Rattle.point_text.specs.Reading.{StandsFor, HasFailed, bytes_taken};

use bnd_io::{Failed, Files, LoadFault};
use bounded_coords::OutOfMemory;
use point_text::Reader;

/// The most bytes of a point file.
const LIMIT: usize = 1 << 21;

const BUFFER: usize = 4096;

/// Reads the open file to its end, piece by piece, into a reader of no bytes. A file of more than 2^21 bytes is left after
/// one byte more, which is not fed. After a refusal the reader is of no use. Memory may be wanting only where a point of the
/// file is kept.
pub fn pour<F: Files>(reader: &mut Reader, files: &mut F) -> Result<(), LoadFault>
    requires is_open { IsTrue (F.state files.old).is_open }
    requires untouched { (F.state files.old).taken ≡ 0 }
    requires not_ended { IsFalse (F.state files.old).ended }
    requires whole { IsWhole (F.state files.old) }
    requires empty { (shape : asks.Shape) × StandsFor reader.old shape [] }
    requires going { HasFailed reader.old → ⊥ }
    ensures continues { Continues (F.state files.old) (F.state files.new) }
    ensures same_file { KeepsOpen (F.state files.old) (F.state files.new) }
    ensures counted { CountsNoOpen (F.state files.old) (F.state files.new) }
    ensures total { (F.state files.new).total ≡ grown (F.state files.old).total (F.state files.new).taken }
    ensures stands { OnOk result ((shape : asks.Shape) → StandsFor reader.old shape [] →
        (bytes : List ℕ) × StandsFor reader.new shape bytes × IfSome (F.state files.old).told (λ _. bytes ≡ (F.state files.old).left)) }
    ensures going { OnOk result (HasFailed reader.new → ⊥) }
    ensures taken { OnOk result ((F.state files.new).taken ≡ bytes_taken reader.new) }
    ensures within { OnOk result (bytes_taken reader.new ≤ 2 ^ 21) }
    ensures ended { OnOk result (IsTrue (F.state files.new).ended) }
    ensures not_ended { OnErr result (IsFalse (F.state files.new).ended) }
    ensures too_long { (result ≡ Err fault.TooLong) ↔ ((F.state files.new).taken ≡ 2 ^ 21 + 1) }
    ensures most { (F.state files.new).taken ≤ 2 ^ 21 + 1 }
    ensures long_file { result ≡ Err fault.TooLong → IfSome (F.state files.old).told (λ _. 2 ^ 21 < length (F.state files.old).left) }
    ensures no_fault { result ≢ Err fault.ReadFailed → NoFault (F.state files.old) (F.state files.new) }
    ensures memory { result ≡ Err fault.OutOfMemory → 0 < (F.state files.new).taken }
    ensures kept { result ≡ Err fault.OutOfMemory → (shape : asks.Shape) → StandsFor reader.old shape [] →
        IfSome (F.state files.old).told (λ _. KeepsPoint shape (F.state files.old).left) }
    ensures cause { result ≡ Err fault.ReadFailed → ReadFailed F.last_count (F.state files.old) (F.state files.new) }
{
    let mut buffer = [0u8; BUFFER];
    'pieces: loop {
        let left = LIMIT - reader.taken() as usize;
        let room = BUFFER.min(left + 1);
        let part = &mut buffer[..room];
        match files.read(part) {
            Ok(0) => return Ok(()),
            Ok(n) => {
                if n > left {
                    return Err(LoadFault::TooLong);
                }
                match reader.feed(&part[..n]) {
                    Ok(()) => {}
                    Err(OutOfMemory) => return Err(LoadFault::OutOfMemory),
                }
            }
            Err(Failed) => return Err(LoadFault::ReadFailed),
        }
    }
}
