//! Bytes with a name.

pub(crate) const CANCEL: u8 = 7;

pub(crate) const TAB: u8 = 9;

pub(crate) const RETURN: u8 = 13;

pub(crate) const QUOTE: u8 = 17;

pub(crate) const SEARCH_BACKWARD: u8 = 18;

pub(crate) const SEARCH_FORWARD: u8 = 19;

pub(crate) const UNIVERSAL_ARGUMENT: u8 = 21;

pub(crate) const CONTROL_X: u8 = 24;

pub(crate) const ESCAPE: u8 = 27;

pub(crate) const DELETE: u8 = 127;
