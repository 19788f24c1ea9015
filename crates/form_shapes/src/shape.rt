ghost use Rattle.std.specs.Prelude.{◌≡◌};
ghost use Rattle.form_shapes.specs.Shapes.{import_shapes, export_shapes, require_shapes};

use crate::{Part, Side, Sign};

/// A form, by what follows its keyword.
#[derive(Clone, Copy, PartialEq, Eq)]
pub enum Shape {
    /// `import "x"`
    BareImport,
    /// `import a from "x"`
    DefaultImport,
    /// `import * as a from "x"`
    SpaceImport,
    /// `import { a, b as c } from "x"`
    NamesImport,
    /// `import a, * as b from "x"`
    DefaultSpaceImport,
    /// `import a, { b, c as d } from "x"`
    DefaultNamesImport,
    /// `import("x")` or `require("x")`
    Call,
    /// `import("x",)`
    CommaCall,
    /// `export * from "x"`
    StarExport,
    /// `export * as a from "x"`
    SpaceExport,
    /// `export { a, b as c } from "x"`
    NamesFromExport,
    /// `export { a, b as c }`
    NamesExport,
    /// `export default`
    DefaultExport,
    /// `export var a = 1, b`
    VarExport,
    /// `export let a = 1, b`
    LetExport,
    /// `export const a = 1, b = 2`
    ConstExport,
    /// `export function a`
    FunctionExport,
    /// `export function* a`
    GeneratorExport,
    /// `export async function a`
    AsyncFunctionExport,
    /// `export async function* a`
    AsyncGeneratorExport,
    /// `export class a`
    ClassExport,
}

/// What may follow `import`.
#[tactic(auto, unfolding(crate::specs::Shapes::import_shapes))]
pub(crate) fn import_shapes() -> &'static [Shape]
    ensures { result.now ≡ import_shapes }
{
    &[
        Shape::BareImport,
        Shape::DefaultImport,
        Shape::SpaceImport,
        Shape::NamesImport,
        Shape::DefaultSpaceImport,
        Shape::DefaultNamesImport,
        Shape::Call,
        Shape::CommaCall,
    ]
}

/// What may follow `export`.
#[tactic(auto, unfolding(crate::specs::Shapes::export_shapes))]
pub(crate) fn export_shapes() -> &'static [Shape]
    ensures { result.now ≡ export_shapes }
{
    &[
        Shape::StarExport,
        Shape::SpaceExport,
        Shape::NamesFromExport,
        Shape::NamesExport,
        Shape::DefaultExport,
        Shape::VarExport,
        Shape::LetExport,
        Shape::ConstExport,
        Shape::FunctionExport,
        Shape::GeneratorExport,
        Shape::AsyncFunctionExport,
        Shape::AsyncGeneratorExport,
        Shape::ClassExport,
    ]
}

/// What may follow `require`.
#[tactic(auto, unfolding(crate::specs::Shapes::require_shapes))]
pub(crate) fn require_shapes() -> &'static [Shape]
    ensures { result.now ≡ require_shapes }
{
    &[Shape::Call]
}

impl Shape {
    ghost use Rattle.std.specs.Prelude.{◌≡◌};
    ghost use Rattle.form_shapes.specs.Shapes.{parts_of, is_call, takes_attributes};

    /// The parts behind the keyword.
    #[tactic(auto, unfolding(crate::specs::Shapes::parts_of))]
    pub fn parts(self) -> &'static [Part]
        ensures { result.now ≡ parts_of self }
    {
        use Part::{Named, One, Variables};
        use Sign::*;
        match self {
            Shape::BareImport => &[One(Str)],
            Shape::DefaultImport => &[One(Name), One(From), One(Str)],
            Shape::SpaceImport => &[One(Star), One(As), One(Name), One(From), One(Str)],
            Shape::NamesImport => &[Named(Side::Right), One(From), One(Str)],
            Shape::DefaultSpaceImport => &[
                One(Name),
                One(Comma),
                One(Star),
                One(As),
                One(Name),
                One(From),
                One(Str),
            ],
            Shape::DefaultNamesImport => &[
                One(Name),
                One(Comma),
                Named(Side::Right),
                One(From),
                One(Str),
            ],
            Shape::Call => &[One(Open), One(Str), One(Close)],
            Shape::CommaCall => &[One(Open), One(Str), One(Comma), One(Close)],
            Shape::StarExport => &[One(Star), One(From), One(Str)],
            Shape::SpaceExport => &[One(Star), One(As), One(IdName), One(From), One(Str)],
            Shape::NamesFromExport => &[Named(Side::Neither), One(From), One(Str)],
            Shape::NamesExport => &[Named(Side::Left)],
            Shape::DefaultExport => &[One(Default)],
            Shape::VarExport => &[One(Var), Variables],
            Shape::LetExport => &[One(Let), Variables],
            Shape::ConstExport => &[One(Const), Variables],
            Shape::FunctionExport => &[One(Function), One(Name)],
            Shape::GeneratorExport => &[One(Function), One(Star), One(Name)],
            Shape::AsyncFunctionExport => &[One(Async), One(Function), One(Name)],
            Shape::AsyncGeneratorExport => &[One(Async), One(Function), One(Star), One(Name)],
            Shape::ClassExport => &[One(Class), One(Name)],
        }
    }

    /// A call may stand at any depth, a declaration outside of all brackets.
    pub fn is_call(self) -> bool
        ensures { result ≡ is_call self }
    {
        matches!(self, Shape::Call | Shape::CommaCall)
    }

    /// Whether `with` and braces may follow the request.
    pub fn takes_attributes(self) -> bool
        ensures { result ≡ takes_attributes self }
    {
        matches!(
            self,
            Shape::BareImport
                | Shape::DefaultImport
                | Shape::SpaceImport
                | Shape::NamesImport
                | Shape::DefaultSpaceImport
                | Shape::DefaultNamesImport
                | Shape::StarExport
                | Shape::SpaceExport
                | Shape::NamesFromExport
        )
    }
}
