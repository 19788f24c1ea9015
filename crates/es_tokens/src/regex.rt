ghost use Rattle.es_tokens.specs.inner.RegexMachine.{regex_left};

use crate::character::{is_class_char, is_flag, is_regex_char, is_terminator};
use crate::machine::Machine;

/// Where a regular expression stands.
#[derive(Clone, Copy)]
pub(crate) enum Regex {
    Open,
    First,
    Body,
    Backslash,
    Class,
    ClassBackslash,
    Flags,
}

impl Machine for Regex {
    ghost shape = { regex_left };

    fn can_end(self) -> bool {
        matches!(self, Regex::Flags)
    }

    #[tactic(auto, using(crate::proofs::Literals::literals))]
    fn step(self, c: char) -> Option<Regex> {
        match self {
            Regex::Open => match c {
                '/' => Some(Regex::First),
                _ => None,
            },
            Regex::First => match c {
                '*' => None,
                '\\' => Some(Regex::Backslash),
                '[' => Some(Regex::Class),
                _ => is_regex_char(c).then_some(Regex::Body),
            },
            Regex::Body => match c {
                '/' => Some(Regex::Flags),
                '\\' => Some(Regex::Backslash),
                '[' => Some(Regex::Class),
                _ => is_regex_char(c).then_some(Regex::Body),
            },
            Regex::Backslash => (!is_terminator(c)).then_some(Regex::Body),
            Regex::Class => match c {
                ']' => Some(Regex::Body),
                '\\' => Some(Regex::ClassBackslash),
                _ => is_class_char(c).then_some(Regex::Class),
            },
            Regex::ClassBackslash => (!is_terminator(c)).then_some(Regex::Class),
            Regex::Flags => is_flag(c).then_some(Regex::Flags),
        }
    }
}
