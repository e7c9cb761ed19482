// Which calls of an object in memory fail.
ghost use Rattle.std.specs.Prelude.{◌≡◌, ◌↔◌, IsTrue, Contains};
ghost use Rattle.host_io.specs.Fails.{part_listed};

/// A kind of call of a disk.
#[derive(Clone, Copy, Debug, PartialEq, Eq)]
pub enum CallKind {
    Attach,
    Read,
    Write,
    Sync,
}

/// A call that fails: its kind, its number from 1 among those of its kind, and how much of it is
/// done.
#[derive(Clone, Copy, Debug, PartialEq, Eq)]
pub struct FailAt {
    pub kind: CallKind,
    pub nr: u64,
    pub part: u32,
}

/// How much is done of this call, where it fails. Of several entries the first counts.
pub fn failing_part(fails: &[FailAt], kind: CallKind, nr: u64) -> Option<u32>
    ensures { result ≡ part_listed fails.now kind nr }
{
    for fail in fails {
        if fail.kind == kind && fail.nr == nr {
            return Some(fail.part);
        }
    }
    None
}

/// Whether the call of this number fails.
pub fn is_listed(fails: &[u64], nr: u64) -> bool
    ensures { IsTrue result ↔ Contains fails.now nr }
{
    fails.contains(&nr)
}
