//! Which sites a port has heard lately.

ghost use Rattle.std.specs.Prelude.{◌≡◌, true, None};
ghost use Rattle.udp_site.specs.Contacts.{nobody_heard, span_of, age, alone, heard_now};
ghost use Rattle.udp_site.specs.Contacts.{heard_lately, is_connected, is_enough, notes};
ghost use Rattle.udp_site.specs.Contacts.{awaits, heard_since, notes_answer, is_late};

use fed_types::{Members, SiteNo, Voters};

/// The microseconds of a span.
const SPAN: u64 = 10_000_000;

/// The sites that a port has heard in the last two spans of ten seconds, and since the last
/// proposal, and its own site, which counts as heard. Moments are microseconds.
#[derive(Clone, Copy, Debug)]
pub(crate) struct Contacts {
    /// By their weights some sites are a quorum.
    members: Members,
    own: SiteNo,
    /// The number of the span in which a site was heard last.
    span: u64,
    /// Those that were heard in that span.
    current: Voters,
    /// Those that were heard in that span and in the one before it.
    recent: Voters,
    /// Those that were heard since the last proposal; none where nothing came.
    since: Option<Voters>,
}

impl Contacts {
    /// Nobody was heard yet.
    pub(crate) fn new(members: Members, own: SiteNo) -> Contacts
        ensures { result ≡ nobody_heard members own }
    {
        Contacts {
            members,
            own,
            span: 0,
            current: alone(own),
            recent: alone(own),
            since: None,
        }
    }

    /// The federation, and the site itself.
    pub(crate) fn own(&self) -> (u64, SiteNo)
        ensures { result ≡ (self.now.members.federation, self.now.own) }
    {
        (self.members.federation(), self.own)
    }

    /// A site is heard.
    pub(crate) fn notes(&mut self, now: u64, site: SiteNo)
        ensures { self.new ≡ notes self.old now site }
    {
        if self.is_enough(now) {
            return;
        }
        let mut current = self.heard_now(now);
        let mut recent = self.heard_lately(now);
        current.add(site);
        recent.add(site);
        self.span = span_of(now);
        self.current = current;
        self.recent = recent;
    }

    /// The site proposes: nothing has come since then.
    pub(crate) fn awaits(&mut self)
        ensures { self.new ≡ awaits self.old }
    {
        self.since = None;
    }

    /// Whether something came since the last proposal. Then what comes from no site changes
    /// nothing.
    pub(crate) fn has_answers(&self) -> bool
        ensures { result ≡ true → notes_answer self.now None ≡ self.now }
    {
        self.since.is_some()
    }

    /// Something comes, which a site may have said.
    pub(crate) fn notes_answer(&mut self, sender: Option<SiteNo>)
        ensures { self.new ≡ notes_answer self.old sender }
    {
        let mut sites = self.heard_since();
        if let Some(site) = sender {
            sites.add(site);
        }
        self.since = Some(sites);
    }

    /// Whether a quorum was heard since the last proposal, or nothing has come.
    pub(crate) fn is_late(&self) -> bool
        ensures { result ≡ is_late self.now }
    {
        match &self.since {
            Some(sites) => sites.is_quorum(&self.members),
            None => true,
        }
    }

    // Those that were heard since the last proposal.
    fn heard_since(&self) -> Voters
        ensures { result ≡ heard_since self.now }
    {
        match self.since {
            Some(sites) => sites,
            None => alone(self.own),
        }
    }

    /// Whether a quorum was heard lately.
    pub(crate) fn is_connected(&self, now: u64) -> bool
        ensures { result ≡ is_connected self.now now }
    {
        self.heard_lately(now).is_quorum(&self.members)
    }

    /// Whether who else is heard in the span of this moment changes nothing.
    pub(crate) fn is_enough(&self, now: u64) -> bool
        ensures { result ≡ is_enough self.now now }
    {
        self.heard_now(now).is_quorum(&self.members)
    }

    // Those that were heard in the span of this moment.
    fn heard_now(&self, now: u64) -> Voters
        ensures { result ≡ heard_now self.now now }
    {
        if self.age(now) == 0 {
            self.current
        } else {
            alone(self.own)
        }
    }

    // Those that were heard in it and in the one before.
    fn heard_lately(&self, now: u64) -> Voters
        ensures { result ≡ heard_lately self.now now }
    {
        match self.age(now) {
            0 => self.recent,
            1 => self.current,
            _ => alone(self.own),
        }
    }

    // How many spans ago a site was heard last.
    fn age(&self, now: u64) -> u64
        ensures { result ≡ age self.now now }
    {
        span_of(now).saturating_sub(self.span)
    }
}

// The number of a moment's span.
fn span_of(now: u64) -> u64
    ensures { result ≡ span_of now }
{
    now / SPAN
}

// Only this site.
fn alone(own: SiteNo) -> Voters
    ensures { result ≡ alone own }
{
    let mut sites = Voters::new();
    sites.add(own);
    sites
}
