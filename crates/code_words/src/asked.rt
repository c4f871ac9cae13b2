//! What a command was asked.

ghost use Rattle.std.specs.Prelude.{◌≡◌, false, None};

/// What words may speak of.
#[derive(Clone, Copy, Debug)]
pub struct Asked<'a> {
    /// The path of the members file.
    pub members: &'a str,
    /// The path of the key file, if there is one.
    pub key: Option<&'a str>,
    /// The number of the site that serves, or that is asked.
    pub site: u8,
    /// The path of the cell, of a site that serves.
    pub cell: Option<&'a str>,
    /// Whether that cell has to be there.
    pub existing: bool,
    /// The address at which the site listens, if one is named.
    pub listens: Option<&'a str>,
    /// The folder below which bags are read, if one is named.
    pub bags: Option<&'a str>,
    /// The folder to deposit, if one is.
    pub path: Option<&'a str>,
    /// How many milliseconds an answer is waited for.
    pub wait: u32,
    /// For how many seconds the site is asked until it knows the bag, if it is.
    pub until_known: Option<u32>,
}

impl<'a> Asked<'a> {
    /// What a command was asked that has this members file, and nothing else that words speak of.
    pub fn of_members(members: &'a str) -> Asked<'a>
        ensures members { result.members.now ≡ members.now }
        ensures no_file { (result.key ≡ None) × (result.cell ≡ None) × (result.existing ≡ false)
            × (result.bags ≡ None) × (result.path ≡ None) }
        ensures no_site { (result.site ≡ 0) × (result.listens ≡ None) × (result.wait ≡ 0)
            × (result.until_known ≡ None) }
    {
        Asked {
            members,
            key: None,
            site: 0,
            cell: None,
            existing: false,
            listens: None,
            bags: None,
            path: None,
            wait: 0,
            until_known: None,
        }
    }
}
