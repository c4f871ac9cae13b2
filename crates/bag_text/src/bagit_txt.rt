/// What a bag's declaration, `bagit.txt`, says (RFC 8493, 2.1.1): its bytes as they are.
#[derive(Clone, Copy, Debug)]
pub struct Declaration<'a> {
    /// The version, such as `1.0`.
    pub version: &'a [u8],
    /// The encoding of the tag files, such as `UTF-8`, in whichever case.
    pub encoding: &'a [u8],
}
