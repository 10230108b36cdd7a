//! A host in memory.

ghost use Rattle.std.specs.Prelude.{◌≡◌, ◌<◌, ◌≤◌, is_some, true, vec_len, vec_capacity};

mod opening;
mod outside;
mod trying;

use crate::bytes::are_bytes;
use crate::calls::Calls;
use crate::finding::newest;
use crate::named::NamedFile;
use crate::plan::{Object, Plan, Planned};
use crate::streams::Streams;
use crate::tally::Tally;
use crate::trip::Trip;
use nt_outside::Ask;
use std::alloc::{AllocError, Global};

/// A host whose files and streams are told. Of files of one name the last counts.
#[derive(Drop)]
pub struct MemHost {
    alloc: Global,
    files: Vec<NamedFile>,
    creating: Option<String>,
    created: Vec<String>,
    streams: Streams,
    asked: Vec<Ask>,
    plan: Plan,
    tally: Tally,
    err_faults: u64,
    opened: u64,
    ghost some: { 1 ≤ plan.most },
    ghost room: { is_some creating ≡ true → vec_len files < vec_capacity files },
}

impl MemHost {
    ghost use Rattle.std.specs.Prelude.{OnOk, OnErr, ◌++◌, ◌∷◌, []};
    ghost use Rattle.std.specs.Option.{option_map};
    ghost use Rattle.nt_outside.specs.World.{file};
    ghost use Rattle.nt_memory.specs.Host.{state_of, world_of, tally_of, plan_of, room_of_host, IsFresh, SetsFile, Plans};
    ghost use Rattle.nt_memory.specs.Streams.{IsRoomy};

    /// A host with no file, none of whose calls is to fail.
    pub fn new(alloc: Global) -> Self
        ensures { IsFresh result }
    {
        MemHost {
            alloc,
            files: Vec::new(alloc),
            creating: None,
            created: Vec::new(alloc),
            streams: Streams::new(alloc),
            asked: Vec::new(alloc),
            plan: Plan::new(alloc),
            tally: Tally::new(Calls::from_vec(Vec::new(alloc)), Trip::none()),
            err_faults: 0,
            opened: 0,
        }
    }

    /// Sets a file, which no disk wrote. It takes room for 4096 bytes more on both streams, as `open_text`, `open_file` and `create` do.
    pub fn add(&mut self, name: &str, bytes: &[u8]) -> Result<(), AllocError>
        ensures sets { SetsFile name.now bytes.now self.old self.new result }
        ensures room { OnOk result (IsRoomy (room_of_host self.new)) }
    {
        let name = String::from_str(self.alloc, name)?;
        let bytes = bytes.to_vec(self.alloc)?;
        self.streams.make_room()?;
        self.files.reserve(2)?;
        are_bytes(&bytes);
        self.files.push_reserved(NamedFile {
            name,
            bytes,
            log: None,
        });
        Ok(())
    }

    /// Lets a call of an object fail: of the host, or of objects that are opened from then on. Of pens, those below 2^32 - 1 count.
    pub fn fail(&mut self, object: Object, call: u64) -> Result<(), AllocError>
        ensures { Plans object call self.old self.new result }
    {
        if let Object::Host = object {
            return self.tally.listed.add(call);
        }
        self.plan.planned.push(Planned { object, call })?;
        if let Object::Pen(pen) = object {
            self.plan.pens = self.plan.pens.max(pen.saturating_add(1));
        }
        Ok(())
    }

    /// The bytes of a file.
    pub fn file(&self, name: &str) -> Option<&[u8]>
        ensures { option_map (λ bytes. bytes.now) result ≡ file (world_of self.now) name.now }
    {
        newest(&self.files, name).map(|f| f.bytes.as_slice())
    }

    /// What was printed on out.
    pub fn out(&self) -> &[u8]
        ensures { result.now ≡ (world_of self.now).out }
    {
        &self.streams.out
    }

    /// What was printed on err.
    pub fn err(&self) -> &[u8]
        ensures { result.now ≡ (world_of self.now).err }
    {
        &self.streams.err
    }
}
