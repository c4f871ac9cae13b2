ghost use Rattle.std.specs.Prelude.{◌≡◌, IfOk};
ghost use Rattle.world_law.specs.Worlds.{new_world};
ghost use Rattle.world_law.specs.Networks.{new_site};
ghost use Rattle.simulator.specs.Federations.{Represents, AreNew, IsStation};

use fed_types::{Members, SiteNo, members_are_well_formed};
use lines::Line;
use records::Owner;
use sim_stations::{Datagrams, SeenBags, Station, Trees};
use std::alloc::{AllocError, Global};

/// A federation as a schedule makes it: its sites, the datagrams that they sent, each by the place
/// of its line, the trees, the bags that were seen in deposits, and the lines so far. In the words
/// of a clause it represents a `World`.
#[derive(Drop)]
pub struct Federation {
    pub(crate) alloc: Global,
    pub(crate) members: Members,
    // Site 1 comes first.
    pub(crate) stations: Vec<Station>,
    pub(crate) sent: Datagrams<usize>,
    pub(crate) trees: Trees,
    pub(crate) seen: SeenBags,
    pub(crate) lines: Vec<Line>,
}

impl Federation {
    /// The federation of these members before anything has happened.
    pub fn new(alloc: Global, members: Members) -> Result<Federation, AllocError>
        ensures { IfOk result (λ f. Represents f (new_world members)) }
    {
        members_are_well_formed(&members);
        let stations = new_stations(alloc, &members)?;
        Ok(Federation {
            alloc,
            members,
            stations,
            sent: Datagrams::new(alloc),
            trees: Trees::new(alloc),
            seen: SeenBags::new(alloc),
            lines: Vec::new(alloc),
        })
    }

    /// What was said so far, in order.
    pub fn lines(&self) -> &[Line]
        ensures { result.now ≡ self.now.lines.items }
    {
        self.lines.as_slice()
    }

    /// The sites, site 1 first.
    pub fn stations(&self) -> &[Station]
        ensures { result.now ≡ self.now.stations.items }
    {
        self.stations.as_slice()
    }

    /// The bags that were seen in deposits so far.
    pub fn seen(&self) -> &SeenBags
        ensures { result.now ≡ self.now.seen }
    {
        &self.seen
    }

    /// What was said, in order.
    pub fn into_lines(self) -> Vec<Line>
        ensures { result.items ≡ self.lines.items }
    {
        let Federation { lines, .. } = self;
        lines
    }
}

// A new site for each member.
fn new_stations(alloc: Global, members: &Members) -> Result<Vec<Station>, AllocError>
    ensures { IfOk result (λ stations. AreNew members.now stations.items) }
{
    let mut stations = Vec::with_capacity(alloc, usize::from(members.count()))?;
    for site in members.sites() {
        stations.push(new_station(alloc, members, site)?)?;
    }
    Ok(stations)
}

// The new station of this site.
fn new_station(alloc: Global, members: &Members, site: SiteNo) -> Result<Station, AllocError>
    ensures { IfOk result (λ station. IsStation members.now site station new_site) }
{
    let members = *members;
    Station::new(alloc, Owner { members, site })
}
