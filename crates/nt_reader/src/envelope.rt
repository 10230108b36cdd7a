//! Envelopes of a file, read into memory.

ghost use Rattle.std.specs.Prelude.{◌≡◌, ◌<◌, ◌≤◌, ◌^◌, length, vec_len, IfOk};
ghost use Rattle.nt_format.specs.Envelopes.{payload_of};
ghost use Rattle.nt_format.specs.Reading.{IsBytes};
ghost use Rattle.nt_num.specs.Faults.{fault, with_values};
ghost use Rattle.nt_file_meaning.specs.Envelopes.{opened_envelope, envelope_of, envelope_fault};
ghost use Rattle.nt_tfile.specs.Calls.{Serves, HasSize, ReadsFile, IsReadAs};
ghost use Rattle.nt_reader.specs.Envelopes.{opened_bytes, block_of};

use crate::faults::BAD_ENVELOPE;
use byteorder::{ByteOrder, LittleEndian};
use nt_frame::{EnvelopeFault, read_envelope};
use nt_listing::{COMPRESSED, OUT_OF_FILE, fault_with};
use nt_num::ReadError;
use nt_outside::ReadAt;
use nt_tfile::{ReadFailure, read_block};
use std::alloc::Global;
use std::marker::Model;

/// Where a block stands in a file.
#[derive(Clone, Copy, Debug, PartialEq, Eq)]
pub struct Block {
    /// Where it begins.
    pub place: u64,
    /// Its bytes in the file.
    pub size: u64,
    /// Its bytes once they are uncompressed.
    pub len: u64,
}

/// An envelope that was read, with its checksum.
#[derive(Drop)]
pub struct Envelope {
    bytes: Vec<u8>,
    sum: u64,
}

impl Model for Envelope {
    ghost use Rattle.nt_file_meaning.specs.Envelopes.{Sealed};
    ghost use Rattle.nt_reader.specs.Envelopes.{opened_bytes};
    ghost use Rattle.std.specs.Prelude.{◌≤◌, length};

    ghost Value = { Sealed };

    ghost view = { λ e. opened_bytes e.bytes.items e.sum };

    ghost invariant = { λ e. 16 ≤ length e.bytes.items };
}

impl Envelope {
    /// What stands in it.
    pub fn payload(&self) -> &[u8]
        ensures { result.now ≡ self.now.payload }
    {
        let end = self.bytes.len() - 8;
        &self.bytes[8..end]
    }

    /// The checksum at its end.
    pub fn sum(&self) -> u64
        ensures { result ≡ self.now.sum }
    {
        self.sum
    }
}

/// What is wrong with bytes at a place that are no envelope of this kind.
fn fault_of(fault: EnvelopeFault, bytes: &[u8], place: u64, kind: u16) -> ReadError
    ensures { result ≡ envelope_fault place kind bytes.now fault }
{
    match fault {
        EnvelopeFault::Size => {
            if bytes.len() < 16 {
                return fault_with(BAD_ENVELOPE, place, 0, 0);
            }
            let said = LittleEndian::read_u64(&bytes[..8]) >> 16;
            fault_with(BAD_ENVELOPE, place, said, bytes.len() as u64)
        }
        EnvelopeFault::Kind { kept } => {
            fault_with(BAD_ENVELOPE, place, u64::from(kept), u64::from(kind))
        }
        EnvelopeFault::Checksum { kept, found } => fault_with(BAD_ENVELOPE, place, kept, found),
    }
}

/// Each item of a slice of bytes is one.
fn are_bytes(bytes: &[u8])
    ensures { IsBytes bytes.now }
{}

/// The checksum of the envelope of this kind that bytes at a place are, or its fault.
fn sum_of(bytes: &[u8], place: u64, kind: u16) -> Result<u64, ReadError>
    ensures read { IsReadAs (λ sum. opened_bytes bytes.now sum) result
        (opened_envelope place kind bytes.now (payload_of kind bytes.now)) }
    ensures long { IfOk result (λ _. 16 ≤ length bytes.now) }
{
    are_bytes(bytes);
    match read_envelope(bytes, kind) {
        Ok(_) => {
            let (_, sum) = bytes.split_at(bytes.len() - 8);
            Ok(LittleEndian::read_u64(sum))
        }
        Err(fault) => Err(fault_of(fault, bytes, place, kind)),
    }
}

/// The envelope of this kind that is a block of a file of this size, or the first fault.
///
/// # Errors
///
/// A defect is that the block is stored compressed, doesn't lie in the file, or is no such envelope.
/// `Fault` comes only where the file's count of faults rose, `Memory` where memory ran out.
pub fn read_sealed<F: ReadAt>(
    alloc: Global,
    file: &mut F,
    size: u64,
    kind: u16,
    block: Block,
) -> Result<Envelope, ReadFailure>
    requires { HasSize (F.state file.old) size }
    ensures file { Serves (F.state file.old) (F.state file.new) result }
    ensures read { ReadsFile (λ e. e)
        (λ told. envelope_of told kind (block_of block)) (F.state file.old) result }
{
    let place = block.place;
    if block.size != block.len {
        let fault = fault_with(COMPRESSED, place, block.len, block.size);
        return Err(ReadFailure::Defect(fault));
    }
    let outside = fault_with(OUT_OF_FILE, place, 0, 0);
    let bytes = read_block(alloc, file, size, place, block.size, outside)?;
    let sum = sum_of(&bytes, place, kind)?;
    Ok(Envelope { bytes, sum })
}
