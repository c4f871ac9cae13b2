ghost use Rattle.standings.specs.Laws.{NothingElseIsHandedOut, SitesStay, WhatIsHeardWasAnswered};

// A function here does nothing: its contract is the law, of what `report_standings` does.

/// Whatever is handed out is the question, for one of the sites that are asked. So nobody else is
/// asked, and nothing else is sent, while answers are waited for either.
pub fn nothing_else_is_handed_out()
    ensures { NothingElseIsHandedOut }
{}

/// What is heard of a site has come from its own address, and is its own answer; and each site is
/// told of once.
pub fn what_is_heard_was_answered()
    ensures answered { WhatIsHeardWasAnswered }
    ensures sites { SitesStay }
{}
