//! What holds of the definitions: calls that do nothing and whose clauses are the laws.
ghost use Rattle.std.specs.Prelude.{◌≡◌, ◌≤◌, ◌↔◌, ◌==◌, ◌&&◌, ◌||◌, ◌∷◌, ◌++◌, [], ℕ, List, Bool, true, not, Ok, Err, Some, codes, length, map, reverse, slice_get};
ghost use Rattle.std.specs.Char.{is_whitespace};
ghost use Rattle.std.specs.List.{AllByRecursion};
ghost use Rattle.std.specs.Str.{IsUtf8};
ghost use Rattle.es_tokens.specs.Longest.{after_longest};
ghost use Rattle.es_tokens.specs.Answers.{answers_of};
ghost use Rattle.es_tokens.specs.AreTokens.{AreTokens, AreLexed};
ghost use Rattle.es_tokens.specs.Braces.{IsClosedBrace, IsPunctuator};
ghost use Rattle.es_tokens.specs.Characters.{is_blank};
ghost use Rattle.es_tokens.specs.ClassShape.{IsLongestOfClass};
ghost use Rattle.es_tokens.specs.Depths.{AreNested, DepthsCountOpen};
ghost use Rattle.es_tokens.specs.IsFirstFault.{FailsBehind, IsFirstFault};
ghost use Rattle.es_tokens.specs.IsLongest.{LeavesLongest};
ghost use Rattle.es_tokens.specs.Language.{HasShape};
ghost use Rattle.es_tokens.specs.Mates.{AreMates};
ghost use Rattle.es_tokens.specs.Shape.{Shape, has_shape};
ghost use Rattle.es_tokens.specs.Spans.{AreInOrder, EndsLineBefore, GapsBetween, NewLinesByGaps};
ghost use Rattle.es_tokens.specs.TokenText.{IsQuoted, token_bytes};
ghost use Rattle.es_tokens.specs.Tokens.{tokens_of};
ghost use Rattle.es_tokens.specs.declared.token.LexToken.{LexToken};
ghost use Rattle.es_tokens.specs.declared.token.Token.{Token};
ghost use Rattle.es_tokens.specs.declared.token.TokenClass.TheVariants.{Str};
ghost use Rattle.es_tokens.specs.declared.token.TokenFault.{TokenFault};

/// A text has one list of tokens or one first fault, and never both.
pub fn one_list_or_one_fault()
    ensures tokens { (text : List ℕ) (tokens : List Token)
        → AreTokens text tokens ↔ (tokens_of text ≡ Ok tokens) }
    ensures fault { (text : List ℕ) (fault : TokenFault)
        → IsFirstFault text fault ↔ (tokens_of text ≡ Err fault) }
{}

/// One by one the answers are the tokens, and behind them the fault where there is one.
pub fn answers_are_the_tokens()
    ensures tokens { (most : ℕ) (text : List ℕ) (found : List LexToken)
        → AreLexed most text found → answers_of most text ≡ map Ok (reverse found) }
    ensures fault { (most : ℕ) (text : List ℕ) (fault : TokenFault) (fails : FailsBehind most text fault)
        → answers_of most text ≡ map Ok (reverse fails.found) ++ Err fault ∷ [] }
{}

/// The first fault stands in the text, or at its end.
pub fn faults_lie_in_the_text()
    ensures { (text : List ℕ) (fault : TokenFault) → tokens_of text ≡ Err fault → fault.offset ≤ length text }
{}

/// No span is empty, the spans lie in order and in the text, and there are no more than the text has bytes.
pub fn spans_lie_in_order()
    ensures order { (text : List ℕ) (tokens : List Token)
        → AreTokens text tokens → AreInOrder text tokens }
    ensures count { (text : List ℕ) (tokens : List Token)
        → AreTokens text tokens → length tokens ≤ length text }
{}

/// Outside the spans there is only white space, line terminators and comments.
pub fn only_gaps_stand_between()
    ensures { (text : List ℕ) (tokens : List Token)
        → AreTokens text tokens → GapsBetween text tokens }
{}

/// A token is on a new line exactly where a line terminator stands in the gap before it.
pub fn new_lines_are_those_of_gaps()
    ensures { (text : List ℕ) (tokens : List Token)
        → AreTokens text tokens → NewLinesByGaps text tokens }
{}

/// Where a text begins with `#!`, its first token stands behind that line.
pub fn tokens_stand_behind_a_hashbang()
    ensures { (text more : List ℕ) (first : Token) (tokens : List Token)
        → AreTokens text (first ∷ tokens) → text ≡ codes "#!" ++ more → EndsLineBefore text first.span.start }
{}

/// Each token is the longest of its class at its place.
pub fn each_token_is_the_longest()
    ensures { (text : List ℕ) (tokens : List Token)
        → AreTokens text tokens → AllByRecursion (IsLongestOfClass text) tokens }
{}

/// A token's bytes are UTF-8, and those of a string are a quote, inner bytes and the same quote.
pub fn token_bytes_are_text()
    ensures utf8 { (text : List ℕ) (tokens : List Token)
        → AreTokens text tokens → AllByRecursion (λ token. IsUtf8 (token_bytes text token)) tokens }
    ensures string { (text : List ℕ) (tokens : List Token)
        → AreTokens text tokens → AllByRecursion (λ token. token.class ≡ Str → IsQuoted (token_bytes text token)) tokens }
{}

/// A token's depth is how many brackets are opened before it and not closed before it.
pub fn depths_count_open_brackets()
    ensures { (text : List ℕ) (tokens : List Token)
        → AreTokens text tokens → DepthsCountOpen text tokens }
{}

/// What a bracket and its mate enclose is deeper, and pairs nest.
pub fn brackets_nest()
    ensures { (text : List ℕ) (tokens : List Token) → AreTokens text tokens → AreNested tokens }
{}

/// White space and line terminators together are Unicode's `White_Space`, without U+0085 and with U+FEFF.
pub fn blanks_are_those_of_unicode()
    ensures { (c : ℕ) → is_blank c ≡ ((is_whitespace c && not (c == 0x85)) || c == 0xfeff) }
{}

/// Each bracket has its mate, and any other token is its own.
pub fn each_bracket_has_its_mate()
    ensures { (text : List ℕ) (tokens : List Token) → AreTokens text tokens → AreMates text tokens }
{}

/// The mate of a `{` is a `}` behind it.
pub fn each_brace_is_closed()
    ensures { (text : List ℕ) (tokens : List Token) (at : ℕ) (brace : Token)
        → AreTokens text tokens → slice_get tokens at ≡ Some brace → IsPunctuator text brace (codes "{")
        → IsClosedBrace text tokens at brace }
{}

/// Whether a text has a shape is as the words of languages say.
pub fn matching_is_membership()
    ensures { (shape : Shape) (text : List ℕ) → (has_shape shape text ≡ true) ↔ HasShape shape text }
{}

/// The longest front passes, and no longer one does.
pub fn longest_is_longest()
    ensures { (passes : List ℕ → Bool) (text : List ℕ)
        → LeavesLongest passes text (after_longest passes text) }
{}
