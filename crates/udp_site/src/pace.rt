ghost use Rattle.std.specs.Prelude.{◌≡◌, ◌≤◌, ◌+◌, ◌*◌, min};
ghost use Rattle.std.specs.Prelude.{ℕ, false, Some, None};
ghost use Rattle.dgram.specs.Decoded.{message_of};
ghost use Rattle.udp_site.specs.declared.movement.Sign.{Sign};
ghost use Rattle.udp_site.specs.Pace.{begins, longer, idles, hears, meets, listens, arrives, takes};
ghost use Rattle.udp_site.specs.Pace.{answers_late, proposes, proposes_first, proposes_more};
ghost use Rattle.udp_site.specs.Pace.{registers, awaits_turns, hands, hears_quorum, is_prompt};
ghost use Rattle.udp_site.specs.Pace.{goes_round, most_prompt};
ghost use Rattle.udp_site.specs.Pace.{wait_at, between, pause, pause_left, at_most, left};
ghost use Rattle.udp_site.specs.Pace.{alone_for};
ghost use Rattle.udp_site.specs.Signs.{signal_at};

use crate::contacts::Contacts;
use crate::movement::{
    Sign, Signal, is_accept, is_pending, is_prepare, is_registered, is_request, is_vote,
};
use crate::waits::Waits;
use addresses::Address;
use fed_types::SiteNo;

/// How many of its first waits a port lets pass between two idle turns, where no turn is idle by
/// itself.
const FIRST_WAITS: u64 = 10;

/// The least number of milliseconds between two such turns.
const LEAST_BETWEEN: u64 = 250;

/// The most milliseconds that a port waits while a quorum is heard, unless its first wait is longer
/// or answers are late.
const MOST_CONNECTED: u32 = 500;

/// The least number of milliseconds between a proposal and one that a question brings, and between
/// two recoveries of a version.
const SECOND: u32 = 1000;

/// How many turns are prompt at most: nothing is taken in meanwhile.
const MOST_PROMPT: u32 = 1000;

/// How many proposals a site makes at most without waiting for votes.
pub(crate) const MOST_TOGETHER: u32 = 32;

const MICROS: u64 = 1000;

/// How long a port waits next. Moments are microseconds.
#[derive(Clone, Copy, Debug)]
pub(crate) struct Pace {
    pub(crate) waits: Waits,
    /// How long it waits, unless a quorum is heard.
    pub(crate) wait: u32,
    /// How long it waits for answers: twice as long after each proposal whose answers were late.
    pub(crate) answer_wait: u32,
    /// When the wait of its last turn that was idle ended.
    pub(crate) idle_at: u64,
    /// When it did so last in a turn that was no prompt one, or went round.
    pub(crate) round_at: u64,
    /// How many proposals the site made together, less a vote or a known bag for each.
    pub(crate) under_way: u32,
    /// Whether it proposed since its last turn was idle and the last batch ended.
    pub(crate) together: bool,
    /// How many turns are idle at once where no proposal is under way, since deposits wait that
    /// weren't proposed.
    pub(crate) prompt: u32,
    /// How many turns may be idle without a proposal before it is sure that there is none to make.
    pub(crate) due: u32,
    /// How many turns are idle at once, a second after the last proposal, since a client asked for
    /// a bag that is pending.
    pub(crate) asked: u32,
    /// When the turn was idle in which the site proposed last, or after which it recovered last.
    pub(crate) proposed_at: u64,
    /// When a turn was idle last in which a quorum was heard.
    pub(crate) connected_at: u64,
    /// Whom a site has heard; a client notes that of nobody.
    pub(crate) contacts: Option<Contacts>,
}

impl Pace {
    /// The pace of a port that begins at the moment 0.
    pub(crate) fn new(waits: Waits, contacts: Option<Contacts>) -> Pace
        ensures { result ≡ begins waits contacts }
    {
        Pace {
            waits,
            wait: waits.first,
            answer_wait: waits.first,
            idle_at: 0,
            round_at: 0,
            under_way: 0,
            together: false,
            prompt: 0,
            due: waits.prompt,
            asked: 0,
            proposed_at: 0,
            connected_at: 0,
            contacts,
        }
    }

    /// A turn was idle.
    pub(crate) fn idles(&mut self, now: u64)
        ensures { self.new ≡ idles self.old now }
    {
        let is_prompt = self.is_prompt(now);
        let goes_round = self.goes_round(now);
        let prompt = if is_prompt && goes_round {
            self.more_prompt()
        } else {
            self.prompt
        };
        if !is_prompt || goes_round {
            self.round_at = now;
        }
        if self.due == 0 && !is_prompt {
            self.wait = self.longer(self.wait);
        }
        if self.hears_quorum(now) {
            self.connected_at = now;
        }
        self.idle_at = now;
        self.together = false;
        self.prompt = prompt.saturating_sub(1);
        self.due = self.due.saturating_sub(1);
        self.asked = self.asked.saturating_sub(1);
    }

    // Whether the next turn is idle at once.
    fn is_prompt(&self, now: u64) -> bool
        ensures { result ≡ is_prompt self.now now }
    {
        self.prompt != 0 && self.under_way == 0 && (self.hears_quorum(now) || self.due != 0)
    }

    // Whether it is time to propose again what was proposed before.
    fn goes_round(&self, now: u64) -> bool
        ensures { result ≡ goes_round self.now now }
    {
        now.saturating_sub(self.round_at) >= self.pause()
    }

    // Twice this wait, up to the longest one.
    fn longer(&self, wait: u32) -> u32
        ensures { result ≡ longer self.now wait }
    {
        let most = self.waits.most.max(self.waits.first);
        wait.saturating_mul(2).min(most)
    }

    /// Whether what came from this port may change anything. All may if it is the first that comes
    /// after a proposal. Of what a site says to itself a vote may, and what a client asks may not.
    /// What others say may while a proposal is under way, a wait has grown, or too few sites were
    /// heard.
    pub(crate) fn heeds(&self, now: u64, own: Address, from: Address, bytes: &[u8]) -> bool
        ensures { result ≡ false → (federation : ℕ)
            → takes self.now now (signal_at own from (message_of federation bytes.now))
            ≡ self.now }
    {
        if self.notes_arrivals() {
            return true;
        }
        if own == from {
            return is_vote(bytes);
        }
        if is_request(bytes) {
            return false;
        }
        if self.under_way != 0 {
            return true;
        }
        if self.wait != self.waits.first || self.answer_wait != self.waits.first {
            return true;
        }
        self.wants_contacts(now)
    }

    // Whether it is noted that something comes, whoever says it.
    fn notes_arrivals(&self) -> bool
        ensures { result ≡ false → arrives self.now None ≡ self.now }
    {
        if self.under_way == 0 {
            return false;
        }
        match &self.contacts {
            Some(contacts) => !contacts.has_answers(),
            None => false,
        }
    }

    // Whether a site that is heard now is noted.
    fn wants_contacts(&self, now: u64) -> bool
        ensures { result ≡ false → (site : ℕ)
            → meets self.now.contacts now site ≡ self.now.contacts }
    {
        match &self.contacts {
            Some(contacts) => !contacts.is_enough(now),
            None => false,
        }
    }

    /// A datagram came at this moment, from which this is learned.
    pub(crate) fn takes(&mut self, now: u64, signal: Signal)
        ensures { self.new ≡ takes self.old now signal }
    {
        self.arrives(signal.sender);
        if let Some(site) = signal.sender {
            self.meets(now, site);
        }
        self.hears(signal.sign);
    }

    // Something comes, which may answer a proposal that is under way.
    fn arrives(&mut self, sender: Option<SiteNo>)
        ensures { self.new ≡ arrives self.old sender }
    {
        if self.under_way == 0 {
            return;
        }
        if let Some(contacts) = &mut self.contacts {
            contacts.notes_answer(sender);
        }
    }

    // A site is heard.
    fn meets(&mut self, now: u64, site: SiteNo)
        ensures { self.new ≡ listens self.old now (Some site) }
    {
        if let Some(contacts) = &mut self.contacts {
            contacts.notes(now, site);
        }
    }

    // What came is a sign of this.
    fn hears(&mut self, sign: Sign)
        ensures { self.new ≡ hears self.old sign }
    {
        match sign {
            Sign::Still => {}
            Sign::Moves => self.wait = self.waits.first,
            Sign::Decides => {
                self.wait = self.waits.first;
                self.answer_wait = self.waits.first;
                self.under_way = self.under_way.saturating_sub(1);
            }
        }
    }

    /// A datagram is handed out for a port.
    pub(crate) fn hands(&mut self, own: Address, to: Address, bytes: &[u8])
        ensures { self.new ≡ hands self.old own to bytes.now }
    {
        if is_prepare(bytes) && own == to {
            self.proposes();
        } else if is_accept(bytes) {
            self.hears(Sign::Moves);
        } else if is_registered(bytes) {
            self.registers();
        } else if is_pending(bytes) {
            self.asked = self.waits.prompt;
        }
    }

    // A deposit is registered.
    fn registers(&mut self)
        ensures { self.new ≡ registers self.old }
    {
        self.wait = self.waits.first;
        self.prompt = self.more_prompt();
        self.due = self.waits.prompt;
    }

    // As many prompt turns as there are, and those that one more proposal needs.
    fn more_prompt(&self) -> u32
        ensures { result ≡ min (self.now.prompt + self.now.waits.prompt) most_prompt }
    {
        self.prompt
            .saturating_add(self.waits.prompt)
            .min(MOST_PROMPT)
    }

    /// The turns of a batch were taken, or the batch ends. So many deposits wait that weren't
    /// proposed in this round, as far as that is known.
    pub(crate) fn awaits_turns(&mut self, deposits: u32)
        ensures { self.new ≡ awaits_turns self.old deposits }
    {
        self.together = false;
        let deposits = deposits.min(MOST_TOGETHER);
        self.prompt = deposits.saturating_mul(self.waits.prompt).min(MOST_PROMPT);
    }

    // The site proposes.
    fn proposes(&mut self)
        ensures { self.new ≡ proposes self.old }
    {
        if self.together && self.under_way != 0 {
            self.proposes_more();
        } else {
            self.proposes_first();
        }
    }

    // It proposes together with what is under way.
    fn proposes_more(&mut self)
        ensures { self.new ≡ proposes_more self.old }
    {
        self.under_way = self.under_way.saturating_add(1).min(MOST_TOGETHER);
    }

    // It proposes apart from what is under way, if anything is.
    fn proposes_first(&mut self)
        ensures { self.new ≡ proposes_first self.old }
    {
        if self.answers_late() {
            self.answer_wait = self.longer(self.answer_wait);
        }
        self.wait = self.longer(self.wait);
        self.under_way = 1;
        self.together = true;
        self.due = self.waits.prompt;
        self.asked = 0;
        self.proposed_at = self.idle_at;
        if let Some(contacts) = &mut self.contacts {
            contacts.awaits();
        }
    }

    // Whether answers to a proposal that is under way are late.
    fn answers_late(&self) -> bool
        ensures { result ≡ answers_late self.now }
    {
        match &self.contacts {
            Some(contacts) => self.under_way != 0 && contacts.is_late(),
            None => false,
        }
    }

    /// For how many microseconds a turn that began then waits still. With 0 it is idle.
    pub(crate) fn left(&self, began: u64, now: u64) -> u64
        ensures { result ≡ left self.now began now }
    {
        let quiet = MICROS * u64::from(self.wait_at(now));
        quiet
            .saturating_sub(now.saturating_sub(began))
            .min(self.at_most(now))
    }

    // The same, whatever comes.
    fn at_most(&self, now: u64) -> u64
        ensures { result ≡ at_most self.now now }
    {
        let since_idle = now.saturating_sub(self.idle_at);
        let fair = (MICROS * self.between(now)).saturating_sub(since_idle);
        if self.asked == 0 {
            return fair;
        }
        fair.min(self.pause_left(now))
    }

    // For how many microseconds no question makes a turn idle.
    fn pause_left(&self, now: u64) -> u64
        ensures { result ≡ pause_left self.now now }
    {
        self.pause()
            .saturating_sub(now.saturating_sub(self.proposed_at))
    }

    /// How many microseconds are between two ballots that clients bring.
    pub(crate) fn pause(&self) -> u64
        ensures { result ≡ pause self.now }
    {
        let millis = u64::from(SECOND.max(self.answer_wait));
        MICROS * millis
    }

    /// For how many milliseconds the site has heard no quorum.
    pub(crate) fn alone_for(&self, now: u64) -> u64
        ensures { result ≡ alone_for self.now now }
    {
        if self.hears_quorum(now) {
            return 0;
        }
        (now.saturating_sub(self.connected_at) / MICROS).max(1)
    }

    // The most milliseconds between two idle turns.
    fn between(&self, now: u64) -> u64
        ensures between { result ≡ between self.now now }
        ensures within { result ≤ 10 * 4294967295 }
    {
        if self.is_prompt(now) {
            return 0;
        }
        let waits = FIRST_WAITS * u64::from(self.waits.first);
        u64::from(self.wait_at(now)).max(waits.max(LEAST_BETWEEN))
    }

    // How many milliseconds it waits now.
    fn wait_at(&self, now: u64) -> u32
        ensures { result ≡ wait_at self.now now }
    {
        if self.hears_quorum(now) {
            let most = self.waits.first.max(MOST_CONNECTED);
            return self.wait.min(most).max(self.answer_wait);
        }
        self.wait
    }

    // Whether a quorum was heard lately.
    fn hears_quorum(&self, now: u64) -> bool
        ensures { result ≡ hears_quorum self.now.contacts now }
    {
        match &self.contacts {
            Some(contacts) => contacts.is_connected(now),
            None => false,
        }
    }
}
