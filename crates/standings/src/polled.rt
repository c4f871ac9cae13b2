use addresses::Address;
use fed_types::SiteNo;
use udp_site::Standing;

/// What a site has answered.
#[derive(Clone, Copy, Debug, PartialEq, Eq)]
pub struct Heard {
    /// After how many milliseconds the answer came, from the first question on.
    pub millis: u64,
    pub standing: Standing,
}

/// A site that is asked how it stands.
#[derive(Clone, Copy, Debug, PartialEq, Eq)]
pub struct Polled {
    pub site: SiteNo,
    pub address: Address,
    /// Its first answer, if one came.
    pub heard: Option<Heard>,
}
