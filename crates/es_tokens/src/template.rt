ghost use Rattle.es_tokens.specs.inner.TemplateMachine.{template_left};

use crate::character::is_template_char;
use crate::machine::Machine;

/// Where a part of a template stands.
#[derive(Clone, Copy)]
pub(crate) enum Template {
    /// Before the backquote.
    Begun,
    /// Before the brace that ends an expression.
    Resumed,
    Body,
    Dollar,
    /// Behind a backslash.
    Backslash,
    Closed,
}

impl Machine for Template {
    ghost shape = { template_left };

    fn can_end(self) -> bool {
        matches!(self, Template::Closed)
    }

    #[tactic(auto, using(crate::proofs::Literals::literals))]
    fn step(self, c: char) -> Option<Template> {
        match self {
            Template::Begun => match c {
                '`' => Some(Template::Body),
                _ => None,
            },
            Template::Resumed => match c {
                '}' => Some(Template::Body),
                _ => None,
            },
            Template::Body => match c {
                '`' => Some(Template::Closed),
                '\\' => Some(Template::Backslash),
                '$' => Some(Template::Dollar),
                _ => is_template_char(c).then_some(Template::Body),
            },
            Template::Dollar => match c {
                '`' | '{' => Some(Template::Closed),
                '\\' => Some(Template::Backslash),
                '$' => Some(Template::Dollar),
                _ => is_template_char(c).then_some(Template::Body),
            },
            Template::Backslash => Some(Template::Body),
            Template::Closed => None,
        }
    }
}
