// Whether an entry is served.
ghost use Rattle.std.specs.Prelude.{◌≡◌, Contains};
ghost use Rattle.host_gpt.specs.Entries.{AreUsed};
ghost use Rattle.host_list.specs.Served.{serves};

use host_gpt::Entry;
use host_part::Parts;

pub fn is_served(parts: &Parts, entry: &Entry) -> bool
    requires listed { Contains parts.now.entries entry.now }
    requires used { AreUsed parts.now.entries }
    ensures { result ≡ serves parts.now entry.now }
{
    parts.range(entry.number).is_ok()
}
