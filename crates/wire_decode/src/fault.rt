/// Why a message is no command of a caller.
#[derive(Clone, Copy, Debug, PartialEq, Eq)]
pub enum WireFault {
    /// The body breaks the rule with this number, 1 to 6 for W01 to W06; 0: the head of the message has a bad form.
    BadForm(u8),
    /// The message has no token, or an unknown one.
    NoCaller,
    /// No route has this method and path.
    NotFound,
    /// The body has more than 65,536 bytes.
    TooLarge,
    /// The body is in an encoding that isn't offered.
    NotOffered,
}
