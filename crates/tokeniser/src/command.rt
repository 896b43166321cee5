// Command names: the kind of a name by its spelling.
ghost use Rattle.std.specs.Prelude.{◌≡◌};
ghost use Rattle.std.specs.List.{list_any};
ghost use Rattle.std.specs.Str.{bytes_eq};
ghost use Rattle.rules.specs.Commands.{kind_of};

use syntax::Token;

// The names that begin a test: a static, so that the list isn't built anew at each look.
static IFS: [&[u8]; 16] = [
    b"if", b"iftrue", b"ifcase", b"ifnum", b"ifcat", b"ifx", b"ifvoid", b"ifhbox", b"ifvbox",
    b"ifhmode", b"ifmmode", b"ifvmode", b"ifinner", b"ifdim", b"ifeof", b"ifstar",
];

// Whether a name is one of these.
fn is_among(names: &[&[u8]], name: &[u8]) -> bool
    ensures { result ≡ list_any (λ these. bytes_eq name.now these.now) names.now }
{
    names.iter().any(|these| name == *these)
}

// The kind of a name. The rules ask for the tests before \begin and \end; here these come first, since a list is longer to look through.
#[tactic(auto, using(crate::proofs::Spellings::kinds))]
pub fn kind_of(name: &[u8]) -> u32
    ensures { result ≡ kind_of name.now }
{
    let is = |spelling: &[u8]| name == spelling;
    if is(b"") {
        Token::ERROR
    } else if is(b"(") || is(b"[") {
        Token::BEGIN_MATH
    } else if is(b")") || is(b"]") {
        Token::END_MATH
    } else if is(b"iffalse") {
        Token::IF_FALSE
    } else if is(b"iftypst") {
        Token::IF_TYPST
    } else if is(b"else") {
        Token::ELSE
    } else if is(b"fi") {
        Token::END_IF
    } else if is(b"left") {
        Token::LEFT
    } else if is(b"right") {
        Token::RIGHT
    } else if is(b"begin") {
        Token::ERROR_BEGIN_ENVIRONMENT
    } else if is(b"end") {
        Token::ERROR_END_ENVIRONMENT
    } else if is_among(&IFS, name) {
        Token::IF
    } else {
        Token::GENERIC
    }
}
