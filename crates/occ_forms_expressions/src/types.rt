//! Parses types: dimensions, data types, names, timers, and channels with what they carry.
ghost use Rattle.occ_forms_expressions.specs.Reading.{IsNot, IsNotCounted, IsNotWord, Reads, ReadsExpr, begin_of, is_operand_begin};
ghost use Rattle.occ_forms_expressions.specs.Spelling.{builtin_then, channel_words, counted_array, data_base_token, data_form_then, dimension_then, many, perhaps_decoration_of, primitive_word, type_form_then};
ghost use Rattle.occ_forms_expressions.specs.TypeEnds.{EndsArray, EndsBuiltin, EndsCarried, EndsType};
ghost use Rattle.occ_forms_expressions.specs.declared.tree.Builtin.{Builtin as ABuiltin};
ghost use Rattle.occ_forms_expressions.specs.declared.tree.Builtin.TheVariants as u;
ghost use Rattle.occ_forms_expressions.specs.declared.tree.ChannelWords.{ChannelWords as SomeChannelWords};
ghost use Rattle.occ_forms_expressions.specs.declared.tree.DataBase.{DataBase as ADataBase};
ghost use Rattle.occ_forms_expressions.specs.declared.tree.DataForm.{DataForm as ADataForm};
ghost use Rattle.occ_forms_expressions.specs.declared.tree.Dimension.{Dimension as ADimension};
ghost use Rattle.occ_forms_expressions.specs.declared.tree.PrimitiveWord.{PrimitiveWord as APrimitiveWord};
ghost use Rattle.occ_forms_expressions.specs.declared.tree.TypeForm.TheVariants as ty;
ghost use Rattle.occ_forms_expressions.specs.declared.tree.TypeForm.{TypeForm as ATypeForm};
ghost use Rattle.occ_lines.specs.declared.token.Symbol.TheVariants as s;
ghost use Rattle.occ_lines.specs.declared.token.Token.TheVariants as t;
ghost use Rattle.occ_lines.specs.declared.token.Token.{Token as AToken};
ghost use Rattle.occ_lines.specs.declared.token.Word.TheVariants as w;
ghost use Rattle.std.specs.Prelude.{IfOk, IfSome, List, MatchOption, Option, length, ℕ, ◌+◌, ◌∷◌, ◌≡◌, ◌≢◌, ◌≤◌, ◌<◌};

use super::begin::{Begin, begins};
use super::list::closed;
use super::part::{data_base, primitive};
use super::token_reader::{after, after_word, first, name};
use super::tree::{
    Builtin, ChannelWords, DataBase, DataForm, Dimension, Expr, PrimitiveWord, TypeForm,
};
use occ_base::{Boxed, Items};
use occ_lines::{Symbol, Token, Word};
use std::alloc::{AllocError, Global};

/// What stands after a type, which says whether `::[]` goes on with the type of a channel.
#[derive(Clone, Copy)]
pub enum Following {
    /// An operand, a name or a bracket: it always does.
    More,
    /// The end of an expression: it does unless an operand stands after the data type that follows, since `[]` begins
    /// a conversion then.
    End,
}

/// A dimension, of which the first bracket is read.
pub fn dimension<'a, F: Fn(Global, &[Token]) -> Result<Option<(Expr, &[Token])>, AllocError>>(
    alloc: Global,
    tokens: &'a [Token],
    inner: &F,
) -> Result<Option<(Dimension, &'a [Token])>, AllocError>
    requires inner { ReadsExpr (length tokens.now + 1) (F.pre inner.now) (F.post inner.now) }
    ensures found { IfOk result (λ r. IfSome r (λ x. t.Symbol s.OpenIndex ∷ tokens.now ≡ dimension_then x.0 x.1.now)) }
    ensures shorter { IfOk result (λ r. IfSome r (λ x. length x.1.now < length tokens.now)) }
    ensures only { IfOk result (λ r. (d : ADimension) (k : List AToken) → t.Symbol s.OpenIndex ∷ tokens.now ≡ dimension_then d k → Reads r d k) }
{
    if let Some(rest) = after(tokens, Symbol::CloseIndex) {
        return Ok(Some((Dimension::Open, rest)));
    }
    let Some((size, rest)) = closed(alloc, tokens, Symbol::CloseIndex, inner)? else {
        return Ok(None);
    };
    Ok(Some((Dimension::Sized(Boxed::new(alloc, size)?), rest)))
}

/// Dimensions, perhaps none.
pub fn dimensions<'a, F: Fn(Global, &[Token]) -> Result<Option<(Expr, &[Token])>, AllocError>>(
    alloc: Global,
    tokens: &'a [Token],
    inner: &F,
) -> Result<Option<(Items<Dimension>, &'a [Token])>, AllocError>
    requires inner { ReadsExpr (length tokens.now) (F.pre inner.now) (F.post inner.now) }
    ensures found { IfOk result (λ r. IfSome r (λ x. tokens.now ≡ many dimension_then x.0 x.1.now)) }
    ensures shorter { IfOk result (λ r. IfSome r (λ x. length x.1.now ≤ length tokens.now)) }
    ensures only { IfOk result (λ r. (ds : List ADimension) (k : List AToken) → IsNot s.OpenIndex k → tokens.now ≡ many dimension_then ds k → Reads r ds k) }
{
    let mut found = Items::new(alloc);
    let mut rest = tokens;
    while let Some(begun) = after(rest, Symbol::OpenIndex) {
        let Some((one, next)) = dimension(alloc, begun, inner)? else {
            return Ok(None);
        };
        found.push(one)?;
        rest = next;
    }
    Ok(Some((found, rest)))
}

/// What stands after `CHAN`: perhaps `OF`.
pub fn channel_words(tokens: &[Token]) -> (ChannelWords, &[Token])
    ensures found { t.Word w.Chan ∷ tokens.now ≡ channel_words result.0 result.1.now }
    ensures shorter { length result.1.now ≤ length tokens.now }
    ensures only { (words : SomeChannelWords) (k : List AToken) → IsNotWord w.Of k → t.Word w.Chan ∷ tokens.now ≡ channel_words words k → (result.0 ≡ words) × (result.1.now ≡ k) }
{
    match after_word(tokens, Word::Of) {
        Some(rest) => (ChannelWords::ChanOf, rest),
        None => (ChannelWords::Chan, tokens),
    }
}

/// An innermost data type.
pub fn base(alloc: Global, tokens: &[Token]) -> Result<Option<(DataBase, &[Token])>, AllocError>
    ensures found { IfOk result (λ r. IfSome r (λ x. tokens.now ≡ data_base_token x.0 ∷ x.1.now)) }
    ensures only { IfOk result (λ r. (b : ADataBase) (k : List AToken) → tokens.now ≡ data_base_token b ∷ k → Reads r b k) }
{
    let Some((token, rest)) = first(tokens) else {
        return Ok(None);
    };
    let Some(base) = data_base(alloc, token)? else {
        return Ok(None);
    };
    Ok(Some((base, rest)))
}

/// A data type.
pub fn data_form<'a, F: Fn(Global, &[Token]) -> Result<Option<(Expr, &[Token])>, AllocError>>(
    alloc: Global,
    tokens: &'a [Token],
    inner: &F,
) -> Result<Option<(DataForm, &'a [Token])>, AllocError>
    requires inner { ReadsExpr (length tokens.now) (F.pre inner.now) (F.post inner.now) }
    ensures found { IfOk result (λ r. IfSome r (λ x. tokens.now ≡ data_form_then x.0 x.1.now)) }
    ensures shorter { IfOk result (λ r. IfSome r (λ x. length x.1.now < length tokens.now)) }
    ensures only { IfOk result (λ r. (form : ADataForm) (k : List AToken) → tokens.now ≡ data_form_then form k → Reads r form k) }
{
    let Some((dimensions, rest)) = dimensions(alloc, tokens, inner)? else {
        return Ok(None);
    };
    let Some((base, rest)) = base(alloc, rest)? else {
        return Ok(None);
    };
    Ok(Some((DataForm { dimensions, base }, rest)))
}

/// What follows `::[]`, where it stands first.
pub fn after_counted(tokens: &[Token]) -> Option<&[Token]>
    ensures { MatchOption result (IsNotCounted tokens.now) (λ rest. tokens.now ≡ counted_array rest.now) }
{
    match tokens {
        [
            Token::Symbol(Symbol::Counted),
            Token::Symbol(Symbol::OpenIndex),
            Token::Symbol(Symbol::CloseIndex),
            rest @ ..,
        ] => { Some(rest) }
        _ => None,
    }
}

/// Whether an operand may begin here.
fn begins_operand(tokens: &[Token]) -> bool
    ensures { result ≡ is_operand_begin (begin_of tokens.now) }
{
    matches!(
        begins(tokens),
        Begin::Name | Begin::Bracket | Begin::Parens | Begin::Value
    )
}

/// The data type after `::[]`, where they go on with the type of a channel.
pub fn array<'a, F: Fn(Global, &[Token]) -> Result<Option<(Expr, &[Token])>, AllocError>>(
    alloc: Global,
    following: Following,
    tokens: &'a [Token],
    inner: &F,
) -> Result<Option<(DataForm, &'a [Token])>, AllocError>
    requires inner { ReadsExpr (length tokens.now) (F.pre inner.now) (F.post inner.now) }
    ensures found { IfOk result (λ r. IfSome r (λ x. tokens.now ≡ counted_array (data_form_then x.0 x.1.now))) }
    ensures shorter { IfOk result (λ r. IfSome r (λ x. length x.1.now < length tokens.now)) }
    ensures carried { IfOk result (λ r. IfSome r (λ x. EndsCarried following tokens.now → ⊥)) }
    ensures only { IfOk result (λ r. (form : ADataForm) (k : List AToken) → EndsArray following k → tokens.now ≡ counted_array (data_form_then form k) → Reads r form k) }
{
    let Some(begun) = after_counted(tokens) else {
        return Ok(None);
    };
    let Some((form, rest)) = data_form(alloc, begun, inner)? else {
        return Ok(None);
    };
    if matches!(following, Following::End) && begins_operand(rest) {
        return Ok(None);
    }
    Ok(Some((form, rest)))
}

/// What a channel carries, of which the words are read.
pub fn carried<'a, F: Fn(Global, &[Token]) -> Result<Option<(Expr, &[Token])>, AllocError>>(
    alloc: Global,
    following: Following,
    words: ChannelWords,
    tokens: &'a [Token],
    inner: &F,
) -> Result<Option<(Builtin, &'a [Token])>, AllocError>
    requires inner { ReadsExpr (length tokens.now) (F.pre inner.now) (F.post inner.now) }
    ensures found { IfOk result (λ r. IfSome r (λ x. channel_words words tokens.now ≡ builtin_then x.0 x.1.now)) }
    ensures shorter { IfOk result (λ r. IfSome r (λ x. length x.1.now < length tokens.now)) }
    ensures any { IfOk result (λ r. (k : List AToken) → tokens.now ≡ t.Word w.Any ∷ k → Reads r (u.AnyChannel words) k) }
    ensures data { IfOk result (λ r. (ds : List ADimension) (b : ADataBase) (k : List AToken) → EndsCarried following k → tokens.now ≡ many dimension_then ds (data_base_token b ∷ k) → Reads r (u.Channel words ds b) k) }
    ensures counted { IfOk result (λ r. (ds : List ADimension) (b : ADataBase) (es : List ADimension) (d : ADataBase) (k : List AToken) → EndsArray following k → tokens.now ≡ many dimension_then ds (data_base_token b ∷ counted_array (many dimension_then es (data_base_token d ∷ k))) → Reads r (u.Counted words ds b es d) k) }
{
    if let Some(rest) = after_word(tokens, Word::Any) {
        return Ok(Some((Builtin::AnyChannel(words), rest)));
    }
    let Some((form, rest)) = data_form(alloc, tokens, inner)? else {
        return Ok(None);
    };
    let DataForm { dimensions, base } = form;
    let Some((array, rest)) = array(alloc, following, rest, inner)? else {
        return Ok(Some((Builtin::Channel(words, dimensions, base), rest)));
    };
    let counted = Builtin::Counted(words, dimensions, base, array.dimensions, array.base);
    Ok(Some((counted, rest)))
}

/// A primitive type.
pub fn primitive_type(tokens: &[Token]) -> Option<(PrimitiveWord, &[Token])>
    ensures { MatchOption result ((p : APrimitiveWord) (k : List AToken) → tokens.now ≢ t.Word (primitive_word p) ∷ k) (λ x. tokens.now ≡ t.Word (primitive_word x.0) ∷ x.1.now) }
{
    let (token, rest) = first(tokens)?;
    let primitive = primitive(token)?;
    Some((primitive, rest))
}

/// A type that begins with a reserved word.
pub fn builtin<'a, F: Fn(Global, &[Token]) -> Result<Option<(Expr, &[Token])>, AllocError>>(
    alloc: Global,
    following: Following,
    tokens: &'a [Token],
    inner: &F,
) -> Result<Option<(Builtin, &'a [Token])>, AllocError>
    requires inner { ReadsExpr (length tokens.now) (F.pre inner.now) (F.post inner.now) }
    ensures found { IfOk result (λ r. IfSome r (λ x. tokens.now ≡ builtin_then x.0 x.1.now)) }
    ensures shorter { IfOk result (λ r. IfSome r (λ x. length x.1.now < length tokens.now)) }
    ensures only { IfOk result (λ r. (b : ABuiltin) (k : List AToken) → EndsBuiltin following b k → tokens.now ≡ builtin_then b k → Reads r b k) }
{
    if let Some((primitive, rest)) = primitive_type(tokens) {
        return Ok(Some((Builtin::Primitive(primitive), rest)));
    }
    if let Some(rest) = after_word(tokens, Word::Timer) {
        return Ok(Some((Builtin::Timer, rest)));
    }
    let Some(rest) = after_word(tokens, Word::Chan) else {
        return Ok(None);
    };
    let (words, rest) = channel_words(rest);
    carried(alloc, following, words, rest, inner)
}

/// A type of which the dimensions are read.
pub fn type_after<'a, F: Fn(Global, &[Token]) -> Result<Option<(Expr, &[Token])>, AllocError>>(
    alloc: Global,
    following: Following,
    dimensions: Items<Dimension>,
    tokens: &'a [Token],
    inner: &F,
) -> Result<Option<(TypeForm, &'a [Token])>, AllocError>
    requires inner { ReadsExpr (length tokens.now) (F.pre inner.now) (F.post inner.now) }
    ensures found { IfOk result (λ r. IfSome r (λ x. many dimension_then dimensions tokens.now ≡ type_form_then x.0 x.1.now)) }
    ensures shorter { IfOk result (λ r. IfSome r (λ x. length x.1.now < length tokens.now)) }
    ensures named { IfOk result (λ r. (n : List ℕ) (k : List AToken) → tokens.now ≡ t.Name n ∷ k → Reads r (ty.Named dimensions n) k) }
    ensures builtin { IfOk result (λ r. (b : ABuiltin) (k : List AToken) → EndsBuiltin following b k → tokens.now ≡ builtin_then b k → Reads r (ty.Builtin dimensions b) k) }
{
    if let Some((name, rest)) = name(alloc, tokens)? {
        return Ok(Some((TypeForm::Named(dimensions, name), rest)));
    }
    let Some((builtin, rest)) = builtin(alloc, following, tokens, inner)? else {
        return Ok(None);
    };
    Ok(Some((
        TypeForm::Builtin(dimensions, Boxed::new(alloc, builtin)?),
        rest,
    )))
}

/// A type.
pub fn type_form<'a, F: Fn(Global, &[Token]) -> Result<Option<(Expr, &[Token])>, AllocError>>(
    alloc: Global,
    following: Following,
    tokens: &'a [Token],
    inner: &F,
) -> Result<Option<(TypeForm, &'a [Token])>, AllocError>
    requires inner { ReadsExpr (length tokens.now) (F.pre inner.now) (F.post inner.now) }
    ensures found { IfOk result (λ r. IfSome r (λ x. tokens.now ≡ type_form_then x.0 x.1.now)) }
    ensures shorter { IfOk result (λ r. IfSome r (λ x. length x.1.now < length tokens.now)) }
    ensures only { IfOk result (λ r. (x : ATypeForm) (k : List AToken) → EndsType following x k → tokens.now ≡ type_form_then x k → Reads r x k) }
{
    let Some((dimensions, rest)) = dimensions(alloc, tokens, inner)? else {
        return Ok(None);
    };
    type_after(alloc, following, dimensions, rest, inner)
}

/// A type in brackets, or nothing where no bracket is open.
#[inline(always)]
pub fn perhaps_decoration<
    'a,
    F: Fn(Global, &[Token]) -> Result<Option<(Expr, &[Token])>, AllocError>,
>(
    alloc: Global,
    tokens: &'a [Token],
    inner: &F,
) -> Result<Option<(Option<Boxed<TypeForm>>, &'a [Token])>, AllocError>
    requires inner { ReadsExpr (length tokens.now) (F.pre inner.now) (F.post inner.now) }
    ensures found { IfOk result (λ r. IfSome r (λ x. tokens.now ≡ perhaps_decoration_of x.0 x.1.now)) }
    ensures shorter { IfOk result (λ r. IfSome r (λ x. length x.1.now ≤ length tokens.now)) }
    ensures only { IfOk result (λ r. (x : Option ATypeForm) (k : List AToken) → IsNot s.Open k → tokens.now ≡ perhaps_decoration_of x k → Reads r x k) }
{
    let Some(begun) = after(tokens, Symbol::Open) else {
        return Ok(Some((None, tokens)));
    };
    let Some((form, rest)) = type_form(alloc, Following::More, begun, inner)? else {
        return Ok(None);
    };
    let form = Boxed::new(alloc, form)?;
    let Some(rest) = after(rest, Symbol::Close) else {
        return Ok(None);
    };
    Ok(Some((Some(form), rest)))
}
