//! A refusal as a person reads it.

use crate::faults::SettingsFault;
use std::error::Error;
use std::fmt;
use sw_base::Octets;

/// A name, where it is text.
fn shown(name: &Octets) -> &str {
    std::str::from_utf8(name.bytes()).unwrap_or("of no text")
}

impl fmt::Display for SettingsFault {
    fn fmt<W: fmt::Write>(&self, f: &mut fmt::Formatter<W>) -> fmt::Result {
        match self {
            SettingsFault::NotJson => f.write_str("the settings are no JSON object"),
            SettingsFault::Unknown(key) => write!(f, "there is no key {}", shown(key)),
            SettingsFault::BadType(key) => write!(f, "{} is of another kind", shown(key)),
            SettingsFault::Range(key, least, most) => {
                write!(f, "{} must be from {least} to {most}", shown(key))
            }
            SettingsFault::Missing(key) => write!(f, "{} must be set", shown(key)),
            SettingsFault::Conflict(key, other) => {
                write!(f, "{} and {} don't go together", shown(key), shown(other))
            }
            SettingsFault::Column(name, fault) => {
                write!(f, "the column {} is refused: {fault:?}", shown(name))
            }
            SettingsFault::OutOfMemory => f.write_str("memory ran out"),
        }
    }
}

impl Error for SettingsFault {}
