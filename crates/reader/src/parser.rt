// The parser: it enters the entries of a formula while it goes through the tokens.
ghost use Rattle.std.specs.Prelude.{◌≡◌, ◌≢◌, ◌≤◌, ◌↔◌, IsTrue, ℕ, List, [], ◌∷◌, MatchResult, IfOk, ◌+◌, length};
ghost use Rattle.lexer.specs.Tokens.{Sym, Tok, tok, sign};
ghost use Rattle.lexer.specs.Cuts.{sym_of, place_of};
ghost use Rattle.lexer.specs.Texts.{toks};
ghost use Rattle.grammar.specs.Grammar.{Modality, Fixpoint, opening, closing, word, UnitOf, AndPartOf, PhraseOf};
ghost use Rattle.grammar.specs.declared.Level.TheVariants.{Formula as at_formula, Expression as at_expression};
ghost use Rattle.grammar.specs.Machine.{Inner, sign_of, unit as a_unit, and_tail, or_tail, expect as expected, a_variable, an_action, dot, Any, NotNext, Stops};
ghost use Rattle.lexer.specs.declared.Sign.TheVariants.{And};
ghost use Rattle.reader.specs.Numbering.{Tables, none_entered, put, put_node, put_expr, modal_node, fixpoint_node, or_0};
ghost use Rattle.reader.specs.Outcome.{Ready, Parsed, Judged};
ghost use Rattle.reader.specs.Reading.{Source, State, left, Inside, SameTables, Keeps, Grows, Onto, Enters, feature_at, Notes, Did, Stuck, Takes, Passes, Operates, Variables, Heads, Actions};

use crate::entries::expr_of;
use crate::refusals::{Offence, Refusal};
use crate::tables::Table;
use crate::vocabulary::Vocabulary;
use formulas::judge::MAX_ENTRIES;
use formulas::{Expr, Node};
use grammar::Level;
use lexer::{Sign, Token};

// Reads the tokens of a text of a length into tables that are all false.
pub fn parse(
    tokens: &[Token],
    end: usize,
    names: Vocabulary,
    exprs: &mut [Expr],
    nodes: &mut [Node],
) -> Result<usize, Refusal>
    requires { length tokens.now ≤ 1024 }
    ensures { (x : Source) → Ready x names.entry exprs.old nodes.old → Parsed x end (toks tokens.now)
        exprs.new nodes.new result }
{
    let mut exprs = Table {
        entries: exprs,
        count: 0,
    };
    let mut nodes = Table {
        entries: nodes,
        count: 0,
    };
    let mut reader = Reader {
        tokens,
        end,
        names,
        exprs: &mut exprs,
        nodes: &mut nodes,
        unknown: None,
    };
    reader.whole()
}

// A reader of the tokens that are left, of a text of the length `end`. `unknown` is the place of the first
// unknown name. That it has entered no more than it has read (`Inside`) is no invariant: an entry is made
// after its token is read.
#[derive(Drop)]
struct Reader<'k, 't, 'w, 'x, 'e, 'y, 'n> {
    tokens: &'k [Token<'t>],
    end: usize,
    names: Vocabulary<'w>,
    exprs: &'x mut Table<'e, Expr>,
    nodes: &'y mut Table<'n, Node>,
    unknown: Option<usize>,
}

impl<'k, 't, 'w, 'x, 'e, 'y, 'n> Reader<'k, 't, 'w, 'x, 'e, 'y, 'n> {
    // Enters a formula entry and answers its number.
    fn enter_node(&mut self, node: Node) -> usize
        requires { Inside self.old }
        ensures keeps { Keeps self.old self.new }
        ensures grows { Grows self.old self.new }
        ensures enters { Enters at_formula (λ x. put_node node) self.old self.new result }
    {
        self.nodes.enter(node)
    }

    // Enters an expression entry and answers its number.
    fn enter_expr(&mut self, expr: Expr) -> usize
        requires { Inside self.old }
        ensures keeps { Keeps self.old self.new }
        ensures grows { Grows self.old self.new }
        ensures enters { Enters at_expression (λ x. put_expr expr) self.old self.new result }
    {
        self.exprs.enter(expr)
    }

    // Enters an entry that both tables have into the one of a level.
    fn enter(&mut self, level: Level, node: Node) -> usize
        requires { Inside self.old }
        ensures keeps { Keeps self.old self.new }
        ensures grows { Grows self.old self.new }
        ensures enters { Enters level (λ x. put level node) self.old self.new result }
    {
        match level {
            Level::Formula => self.enter_node(node),
            Level::Expression => self.enter_expr(expr_of(node)),
        }
    }

    // The number that a name was found to have; if it has none, the name's place is noted, and 0 will
    // do in an entry of a text that is refused.
    fn number(&mut self, found: Option<u8>, place: u16) -> u8
        ensures keeps { Keeps self.old self.new }
        ensures same_tables { (self.new.nodes ≡ self.old.nodes) × (self.new.exprs ≡ self.old.exprs) }
        ensures notes { Notes found place self.old self.new }
        ensures value { result ≡ or_0 found }
    {
        match found {
            Some(number) => number,
            None => {
                self.unknown = self.unknown.or(Some(usize::from(place)));
                0
            }
        }
    }

    // Enters a feature's name, which is a unit of expressions alone.
    fn feature(&mut self, level: Level, name: &[u8], place: u16) -> Result<usize, Offence>
        requires { Inside self.old }
        ensures keeps { Keeps self.old self.new }
        ensures grows { Grows self.old self.new }
        ensures enters { MatchResult result
            (λ n. (level ≡ at_expression) × Enters at_expression (feature_at name.now place) self.old
            self.new n) (λ o. (level ≢ at_expression) × (o.0 ≡ place)) }
    {
        only_at(Level::Expression, level, place)?;
        let found = self.names.features.number(name);
        let k = self.number(found, place);
        Ok(self.enter_expr(Expr::Feature(k)))
    }

    // Goes past the token that comes next; where none is left, the text's end offends.
    fn take(&mut self) -> Result<Token<'t>, Offence>
        ensures onto { Onto self.old self.new }
        ensures fewer { IfOk result (λ t. length self.new.tokens.now + 1 ≡ length self.old.tokens.now) }
        ensures same_tables { (self.new.nodes ≡ self.old.nodes) × (self.new.exprs ≡ self.old.exprs) }
        ensures takes { MatchResult result (λ t. Takes (sym_of t) (place_of t) self.old self.new)
            (λ o. (left self.old ≡ []) × (o.0 ≡ self.old.end)) }
    {
        let tokens = self.tokens;
        match tokens.first() {
            Some(token) => {
                self.tokens = &tokens[1..];
                Ok(*token)
            }
            None => Err(Offence(self.end)),
        }
    }

    // Goes past a sign that has to come next.
    fn expect(&mut self, wanted: Sign) -> Result<(), Offence>
        ensures onto { Onto self.old self.new }
        ensures reads { (m : Inner) → wanted ≡ sign_of m → MatchResult result
            (λ _. Passes wanted self.old self.new) (λ o. Stuck (expected m ∷ []) self.old o.0) }
    {
        let token = self.take()?;
        if is_sign(token, wanted) {
            Ok(())
        } else {
            Err(Offence(token.place()))
        }
    }

    // Goes past an operator if it comes next, and says whether it does.
    fn operator(&mut self, wanted: Sign) -> bool
        ensures onto { Onto self.old self.new }
        ensures fewer { IsTrue result → length self.new.tokens.now + 1 ≡ length self.old.tokens.now }
        ensures same_tables { (self.new.nodes ≡ self.old.nodes) × (self.new.exprs ≡ self.old.exprs) }
        ensures operates { Operates wanted self.old self.new result }
    {
        let tokens = self.tokens;
        let Some(token) = tokens.first() else {
            return false;
        };
        if !is_sign(*token, wanted) {
            return false;
        }
        self.tokens = &tokens[1..];
        true
    }

    fn variable(&mut self) -> Result<u8, Offence>
        ensures onto { Onto self.old self.new }
        ensures reads { MatchResult result (Variables self.old self.new)
            (λ o. Stuck (a_variable ∷ []) self.old o.0) }
    {
        let token = self.take()?;
        let Token::Variable(_place, v) = token else {
            return Err(Offence(token.place()));
        };
        Ok(v)
    }

    // The number of an action's name.
    fn action(&mut self) -> Result<u8, Offence>
        ensures onto { Onto self.old self.new }
        ensures reads { MatchResult result (Actions self.old self.new)
            (λ o. Stuck (an_action ∷ []) self.old o.0) }
    {
        let token = self.take()?;
        let Token::Name(place, name) = token else {
            return Err(Offence(token.place()));
        };
        let found = self.names.actions.number(name);
        Ok(self.number(found, place))
    }

    // The variable of a fixpoint and the dot after it.
    fn fixpoint_head(&mut self) -> Result<u8, Offence>
        ensures onto { Onto self.old self.new }
        ensures reads { MatchResult result (Heads self.old self.new)
            (λ o. Stuck (a_variable ∷ expected dot ∷ []) self.old o.0) }
    {
        let v = self.variable()?;
        self.expect(Sign::Dot)?;
        Ok(v)
    }

    // Phrase, and-part and unit call one another, at either level; in each cycle the tokens left are fewer.

    // A formula, or an expression: and-parts joined by `||`. The answer is the number of its entry.
    #[cycle(phrase)]
    fn phrase(&mut self, level: Level) -> Result<usize, Offence>
        requires { Inside self.old }
        ensures onto { Onto self.old self.new }
        ensures reads { MatchResult result (Did level (PhraseOf level) Stops self.old self.new)
            (λ o. Stuck (a_unit level ∷ and_tail level ∷ or_tail level ∷ []) self.old o.0) }
    {
        let mut left = self.and_part(level)?;
        while self.operator(Sign::Or) {
            let right = self.and_part(level)?;
            left = self.enter(level, Node::Or(left, right));
        }
        Ok(left)
    }

    // Units joined by `&&`.
    #[cycle(phrase)]
    fn and_part(&mut self, level: Level) -> Result<usize, Offence>
        requires { Inside self.old }
        ensures onto { Onto self.old self.new }
        ensures reads { MatchResult result (Did level (AndPartOf level) (NotNext And) self.old self.new)
            (λ o. Stuck (a_unit level ∷ and_tail level ∷ []) self.old o.0) }
    {
        let mut left = self.unit(level)?;
        while self.operator(Sign::And) {
            let right = self.unit(level)?;
            left = self.enter(level, Node::And(left, right));
        }
        Ok(left)
    }

    #[cycle(phrase)]
    fn unit(&mut self, level: Level) -> Result<usize, Offence>
        requires { Inside self.old }
        ensures onto { Onto self.old self.new }
        ensures reads { MatchResult result (Did level (UnitOf level) Any self.old self.new)
            (λ o. Stuck (a_unit level ∷ []) self.old o.0) }
    {
        let token = self.take()?;
        match token {
            Token::Name(place, name) => self.feature(level, name, place),
            Token::Variable(place, v) => {
                only_at(Level::Formula, level, place)?;
                Ok(self.enter_node(Node::Variable(v)))
            }
            Token::Sign(place, sign) => match sign {
                Sign::True => Ok(self.enter(level, Node::True)),
                Sign::False => Ok(self.enter(level, Node::False)),
                Sign::Not => {
                    let part = self.unit(level)?;
                    Ok(self.enter(level, Node::Not(part)))
                }
                Sign::Open => {
                    let whole = self.phrase(level)?;
                    self.expect(Sign::Close)?;
                    Ok(whole)
                }
                Sign::Less | Sign::LeftBracket => {
                    only_at(Level::Formula, level, place)?;
                    let action = self.action()?;
                    self.expect(Sign::Bar)?;
                    let expr = self.phrase(Level::Expression)?;
                    self.expect(closing(sign))?;
                    let part = self.unit(level)?;
                    Ok(self.enter_node(modal_node(sign, action, expr, part)))
                }
                Sign::Mu | Sign::Nu => {
                    only_at(Level::Formula, level, place)?;
                    let v = self.fixpoint_head()?;
                    let body = self.phrase(level)?;
                    Ok(self.enter_node(fixpoint_node(sign, v, body)))
                }
                _ => Err(Offence(usize::from(place))),
            },
        }
    }

    // Refuses tokens that go on.
    fn end(&self) -> Result<(), Offence>
        ensures { MatchResult result (λ _. left self.now ≡ [])
            (λ o. (s : Sym) × (rest : List Tok) × (left self.now ≡ tok s o.0 ∷ rest)) }
    {
        match self.tokens.first() {
            Some(token) => Err(Offence(token.place())),
            None => Ok(()),
        }
    }

    // A formula and then the text's end: how many formula entries it has.
    fn whole(&mut self) -> Result<usize, Refusal>
        requires { Inside self.old }
        ensures tables { SameTables self.old self.new }
        ensures parses { (x : Source) → State x self.old none_entered → Parsed x self.old.end
            (left self.old) self.new.exprs.now.entries.now self.new.nodes.now.entries.now result }
    {
        self.phrase(Level::Formula)?;
        self.end()?;
        self.verdict()
    }

    // What is wrong with a formula whose tokens are in order.
    fn verdict(&self) -> Result<usize, Refusal>
        ensures { (x : Source) (t : Tables) → State x self.now t → Judged t result }
    {
        if let Some(place) = self.unknown {
            return Err(Refusal::UnknownName(place));
        }
        if self.nodes.count > MAX_ENTRIES || self.exprs.count > MAX_ENTRIES {
            return Err(Refusal::TooManyEntries);
        }
        Ok(self.nodes.count)
    }
}

// Whether a token is this sign.
fn is_sign(token: Token, wanted: Sign) -> bool
    ensures { IsTrue result ↔ (sym_of token.entry ≡ sign wanted) }
{
    matches!(token, Token::Sign(_, sign) if sign == wanted)
}

// Refuses a token that begins units of one level alone, at the other.
fn only_at(wanted: Level, level: Level, place: u16) -> Result<(), Offence>
    ensures { MatchResult result (λ _. level ≡ wanted) (λ p. (level ≢ wanted) × (p.0 ≡ place)) }
{
    if level == wanted {
        Ok(())
    } else {
        Err(Offence(usize::from(place)))
    }
}

// The sign that closes what a modality's sign opens. Here and below a sign stands for the modality or the
// fixpoint that it begins, and no other comes.
fn closing(sign: Sign) -> Sign
    ensures { (m : Modality) → sign ≡ opening m → result ≡ closing m }
{
    if sign == Sign::Less {
        Sign::Greater
    } else {
        Sign::RightBracket
    }
}

// The entry of the modality that a sign opens.
fn modal_node(sign: Sign, action: u8, expr: usize, part: usize) -> Node
    ensures { (m : Modality) → sign ≡ opening m → result ≡ modal_node m action expr part }
{
    if sign == Sign::Less {
        Node::Diamond { action, expr, part }
    } else {
        Node::Box { action, expr, part }
    }
}

// The entry of the fixpoint that a sign begins.
fn fixpoint_node(sign: Sign, variable: u8, body: usize) -> Node
    ensures { (f : Fixpoint) → sign ≡ word f → result ≡ fixpoint_node f variable body }
{
    if sign == Sign::Mu {
        Node::Least(variable, body)
    } else {
        Node::Greatest(variable, body)
    }
}
