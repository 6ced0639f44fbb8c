// Bytes in memory, that are given and taken in pieces, with faults where they are wanted.
ghost use Rattle.std.specs.Prelude.{◌≡◌, ◌↔◌, ◌≤◌, ◌<◌, [], true, min, length, IfOk, IfErr, OnOk, OnErr, IsErr, IsErrOf};
ghost use Rattle.std.specs.Io.KnownBytes.{ReadConsumes, WriteAppends, Keeps};
ghost use Rattle.outside_io.specs.Faults.{Rose, Stands, CountsFaults, TakesSome, Unfinishes};
ghost use Rattle.outside_io.specs.Calls.{FailsNext, OneMore, BeginsWith};
ghost use Rattle.outside_io.specs.InMemory.{SourceState, SinkState};

use crate::calls::CallCount;
use crate::{Failed, PlainSink, PlainSource, Sink, SinkNo, Source};
use heap_model::OutOfMemory;
use std::alloc::Global;
use std::marker::Model;

/// Bytes in memory to be read, of which one read gives `most` at most. The reads whose numbers were named fail, counted from 0.
#[derive(Drop)]
pub struct BytesSource {
    inner: PlainSource,
    most: usize,
    calls: CallCount,
}

impl Model for BytesSource {
    ghost Value = { SourceState };

    ghost view = { λ s. record { left = s.inner; most = s.most; calls = s.calls } };

    ghost invariant = { λ s. 0 < s.most };
}

impl BytesSource {
    /// A source of a copy of these bytes. `most` bytes at most are given by one read; `fails` has the numbers of the reads
    /// that fail, in any order.
    pub fn new(
        alloc: Global,
        bytes: &[u8],
        most: usize,
        fails: &[u32],
    ) -> Result<BytesSource, OutOfMemory>
        requires { 0 < most }
        ensures left { IfOk result (λ source. source.left ≡ bytes.now) }
        ensures most { IfOk result (λ source. source.most ≡ most) }
        ensures calls { IfOk result (λ source. BeginsWith fails.now source.calls) }
        ensures faults { IfOk result (λ source. ⟦<BytesSource as Source>⟧.faults source ≡ 0) }
    {
        Ok(BytesSource {
            inner: PlainSource::new(alloc, bytes)?,
            most,
            calls: CallCount::new(alloc, fails)?,
        })
    }
}

impl Source for BytesSource {
    ghost use Rattle.std.specs.Prelude.{Some};

    ghost left = { λ s. Some s.left };

    ghost faults = { λ s. s.calls.faults };

    fn read(&mut self, into: &mut [u8]) -> Result<usize, Failed>
        ensures bound { IfOk result (λ n. n ≤ length into.old) }
        ensures bytes { ReadConsumes (Some self.old.left) (Some self.new.left) result into.new }
        ensures count { CountsFaults self.old.calls.faults self.new.calls.faults result }
        ensures failed { OnErr result (Rose self.old.calls.faults self.new.calls.faults) }

        // It fails exactly where it was to fail.
        ensures fails { IsErr result ↔ FailsNext self.old.calls }
        ensures counted { OneMore self.old.calls self.new.calls }
        ensures given { IfOk result (λ n. n ≡ min (min (length into.old) self.old.most) (length self.old.left)) }
        ensures most { self.new.most ≡ self.old.most }
        ensures unread { OnErr result (into.new ≡ into.old) }
    {
        if self.calls.fails() {
            return Err(Failed);
        }
        let room = into.len().min(self.most);
        self.inner.read(&mut into[..room])
    }
}

/// Bytes kept in memory, of which one write takes `most` at most. The calls whose numbers were named fail; writes and
/// finishes are counted together, from 0.
#[derive(Drop)]
pub struct BytesSink {
    inner: PlainSink,
    most: usize,
    calls: CallCount,
}

impl Model for BytesSink {
    ghost Value = { SinkState };

    ghost view = { λ s. record { held = s.inner.held; finished = s.inner.finished; most = s.most; calls = s.calls } };

    ghost invariant = { λ s. 0 < s.most };
}

impl BytesSink {
    /// A sink that holds nothing. `most` bytes at most are taken by one write; `fails` has the numbers of the writes and
    /// finishes that fail, in any order.
    pub fn new(alloc: Global, most: usize, fails: &[u32]) -> Result<BytesSink, OutOfMemory>
        requires { 0 < most }
        ensures held { IfOk result (λ sink. sink.held ≡ []) }
        ensures finished { IfOk result (λ sink. sink.finished ≡ true) }
        ensures most { IfOk result (λ sink. sink.most ≡ most) }
        ensures calls { IfOk result (λ sink. BeginsWith fails.now sink.calls) }
        ensures faults { IfOk result (λ sink. ⟦<BytesSink as Sink>⟧.faults sink ≡ 0) }
    {
        Ok(BytesSink {
            inner: PlainSink::new(alloc),
            most,
            calls: CallCount::new(alloc, fails)?,
        })
    }

    /// The bytes that were taken.
    pub fn held(&self) -> &[u8]
        ensures { result.now ≡ self.now.held }
    {
        self.inner.held()
    }
}

impl Sink for BytesSink {
    ghost use Rattle.std.specs.Prelude.{Some};

    ghost held = { λ s. Some s.held };

    ghost finished = { λ s. s.finished };

    ghost faults = { λ s. s.calls.faults };

    fn write(&mut self, from: &[u8]) -> Result<usize, SinkNo>
        ensures bound { IfOk result (λ n. TakesSome n (length from.now)) }
        ensures bytes { WriteAppends (Some self.old.held) (Some self.new.held) result from.now }
        ensures taken { IfOk result (λ n. Unfinishes n self.old.finished self.new.finished) }
        ensures refused { OnErr result (self.new.finished ≡ self.old.finished) }
        ensures count { CountsFaults self.old.calls.faults self.new.calls.faults result }
        ensures failed { IsErrOf result SinkNo.Failed → Rose self.old.calls.faults self.new.calls.faults }
        ensures memory { IsErrOf result SinkNo.OutOfMemory → Stands self.old.calls.faults self.new.calls.faults }

        // It fails exactly where it was to fail.
        ensures fails { IsErrOf result SinkNo.Failed ↔ FailsNext self.old.calls }
        ensures counted { OneMore self.old.calls self.new.calls }
        ensures whole { IfOk result (λ n. n ≡ min (length from.now) self.old.most) }
        ensures most { self.new.most ≡ self.old.most }
    {
        if self.calls.fails() {
            return Err(SinkNo::Failed);
        }
        let n = from.len().min(self.most);
        self.inner.write(&from[..n])
    }

    fn finish(&mut self) -> Result<(), SinkNo>
        ensures bytes { Keeps (Some self.old.held) (Some self.new.held) }
        ensures taken { OnOk result (self.new.finished ≡ true) }
        ensures refused { OnErr result (self.new.finished ≡ self.old.finished) }
        ensures count { CountsFaults self.old.calls.faults self.new.calls.faults result }
        ensures failed { IsErrOf result SinkNo.Failed → Rose self.old.calls.faults self.new.calls.faults }
        ensures memory { IsErrOf result SinkNo.OutOfMemory → Stands self.old.calls.faults self.new.calls.faults }

        // It fails exactly where it was to fail, and has no other answer than that.
        ensures fails { IsErr result ↔ FailsNext self.old.calls }
        ensures no_memory { IfErr result (λ e. e ≡ SinkNo.Failed) }
        ensures counted { OneMore self.old.calls self.new.calls }
        ensures most { self.new.most ≡ self.old.most }
    {
        if self.calls.fails() {
            return Err(SinkNo::Failed);
        }
        self.inner.finish()
    }
}
