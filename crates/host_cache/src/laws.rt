// Laws over the definitions, each the contract of a function that does nothing.
ghost use Rattle.host_cache.specs.Laws.{ReadSurvives, WriteSurvives, FlushSurvives, FlushIsKept};

/// A crash at any moment of a read leaves what the history before it allows.
pub fn read_survives()
    ensures { ReadSurvives }
{}

/// So does one at any moment of a write or a trim.
pub fn write_survives()
    ensures { WriteSurvives }
{}

/// So does one at any moment of a flush.
pub fn flush_survives()
    ensures { FlushSurvives }
{}

/// A crash after a flush that succeeded leaves what the history with the flush more allows.
pub fn flush_is_kept()
    ensures { FlushIsKept }
{}
