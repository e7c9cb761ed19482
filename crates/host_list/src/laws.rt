// Laws over the definitions, each the contract of a function that does nothing.
ghost use Rattle.host_list.specs.Laws.{TestTellsServed};

/// The test that the text is defined by tells the served entries.
pub fn test_tells_served()
    ensures { TestTellsServed }
{}
