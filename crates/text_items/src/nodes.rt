//! The items of a text as a flat list of nodes.
ghost use Rattle.std.specs.Prelude.{◌≡◌, ◌+◌, ◌-◌, ◌<◌, ◌≤◌, List, length, slice_get, Some, option_copied, OnOk, IfSome};
ghost use Rattle.sexpr.specs.Items.{Item, name_spelled};
ghost use Rattle.sexpr.specs.Source as at;
ghost use Rattle.sexpr.specs.Tokens.{AreTokens, token_text};
ghost use Rattle.sexpr.specs.declared.lexing.Token.{Token};
ghost use Rattle.text_items.specs.Lexers.{GoesOnWith};
ghost use Rattle.text_items.specs.ItemsAt.{ItemsView};
ghost use Rattle.text_items.specs.Nesting.{AreNested, AreItsNodes};
ghost use Rattle.text_items.specs.Stepping.{AreInside, IsItemNode, IsListThere};
ghost use Rattle.text_items.specs.Adding.{placed, IsListClosed};

use sexpr::{Lexer, Token, TokenKind, symbol_name};
use std::alloc::AllocError;
use std::marker::Model;

/// The first token of an item, which is its opening bracket where it is a list, and the place of the node of the
/// item after it.
#[derive(Clone, Copy)]
pub struct Node {
    pub token: Token,
    pub next: usize,
}

/// A text, and the nodes of an item of it.
#[derive(Drop)]
pub struct ItemText<'n, 't> {
    text: &'n Lexer<'t>,
    nodes: &'n [Node],
}

impl<'n, 't> Model for ItemText<'n, 't> {
    ghost Value = { ItemsView };

    ghost view = { λ t. record { source = at.source t.text.now; nodes = t.nodes.now } };

    ghost invariant = { λ t. AreNested (at.source t.text.now) t.nodes.now };
}

impl<'n, 't> ItemText<'n, 't> {
    /// The items of these nodes of a text.
    #[inline(always)]
    pub fn new(text: &'n Lexer<'t>, nodes: &'n [Node]) -> ItemText<'n, 't>
        requires { AreNested (at.source text.now) nodes.now }
        ensures { result ≡ record { source = at.source text.now; nodes = nodes.now } }
    {
        ItemText { text, nodes }
    }

    /// How many nodes there are: the end of the items.
    #[inline(always)]
    pub fn count(&self) -> usize
        ensures { result ≡ length self.now.nodes }
    {
        self.nodes.len()
    }

    /// A law: what begins in an item ends in it, and what is no list is one node. The call does nothing; its contract is the
    /// law.
    #[inline(always)]
    pub fn items_in_items(&self)
        ensures { AreInside self.now }
    {
        let _nodes = self.nodes;
    }

    /// The first node of the item at `k`.
    #[inline(always)]
    pub fn node(&self, k: usize) -> Node
        requires { k < length self.now.nodes }
        ensures { IsItemNode self.now k result }
    {
        node_at(self.nodes, k)
    }

    /// The bytes of the list at `k`, where it stands in another one.
    pub fn list_bytes(&self, k: usize) -> Option<&'t [u8]>
        requires { k < length self.now.nodes }
        ensures { IfSome result (λ list. IsListThere self.now k list.now) }
    {
        let token = node_at(self.nodes, k).token;
        if k == 0 {
            return None;
        }
        match token.kind {
            TokenKind::Open => Some(self.text.text(&token)),
            _ => None,
        }
    }

    /// How a token of the text is spelled.
    #[inline(always)]
    pub fn spelling(&self, token: &Token) -> &'t [u8]
        requires start { token.now.start ≤ token.now.end }
        requires within { token.now.end ≤ length self.now.source }
        ensures { result.now ≡ token_text self.now.source token.now }
    {
        self.text.text(token)
    }

    /// The name of the symbol that a token of the text spells, and None of what is no symbol.
    #[inline(always)]
    pub fn symbol(&self, token: &Token) -> Option<&'t [u8]>
        requires start { token.now.start ≤ token.now.end }
        requires within { token.now.end ≤ length self.now.source }
        ensures { option_copied result ≡ name_spelled token.now.kind (token_text self.now.source token.now) }
    {
        symbol_name(self.text, token)
    }
}

#[inline(always)]
fn node_at(nodes: &[Node], k: usize) -> Node
    requires { k < length nodes.now }
    ensures { slice_get nodes.now k ≡ Some result }
{
    nodes[k]
}

/// Reads the item that begins with `first`, the token that the lexer gave last, in place of what `nodes` held.
///
/// The lexer stands behind the item then. Refused only when out of memory, where nothing is said of the nodes. The
/// text is read once, and the memory is that of the nodes, however deep the lists are nested.
pub fn read_item(
    lexer: &mut Lexer<'_>,
    first: Token,
    nodes: &mut Vec<Node>,
) -> Result<(), AllocError>
    requires item { (i : Item) × (rest : List Token) × GoesOnWith lexer.old first i rest }
    requires behind { at.position lexer.old ≡ first.end }
    requires some { first.start < first.end }
    requires within { first.end ≤ length (at.source lexer.old) }
    ensures item { (i : Item) (rest : List Token) → GoesOnWith lexer.old first i rest → OnOk result (AreItsNodes (at.source lexer.new) nodes.new.items i) }
    ensures behind { (i : Item) (rest : List Token) → GoesOnWith lexer.old first i rest →
        OnOk result (AreTokens (at.source lexer.new) (at.position lexer.new) rest) }
    ensures source { at.source lexer.new ≡ at.source lexer.old }
    ensures position { at.position lexer.old ≤ at.position lexer.new }
    ensures inside { at.position lexer.new ≤ length (at.source lexer.new) }
    // Each node has a token, and each token a byte.
    ensures few { OnOk result (length nodes.new.items + first.start ≤ at.position lexer.new) }
{
    nodes.clear();
    // The first token begins an item, so it closes no list.
    let Some((next, after)) = placed(first.kind, 0, 1) else {
        unreachable!()
    };
    // Put together from its parts, as each token below.
    let token = Token {
        kind: first.kind,
        start: first.start,
        end: first.end,
    };
    nodes.push(Node { token, next })?;
    let mut inner = after;
    // The lexer is copied while the item is read: what it holds stays in registers, where behind the reference it would be
    // loaded and stored anew for each token.
    let mut reading = *lexer;
    while inner != 0 {
        let Ok(found) = reading.next() else {
            unreachable!()
        };
        let Some(token) = found else { unreachable!() };
        // A node is put together here from the parts of the token, in place of a call: what a node has between its kind
        // and the places is then written once for the whole item, and not anew for each token, for which the processor
        // would wait.
        let kind = token.kind;
        let start = token.start;
        let end = token.end;
        if let Some((next, after)) = placed(kind, inner, nodes.len() + 1) {
            let token = Token { kind, start, end };
            nodes.push(Node { token, next })?;
            inner = after;
        } else {
            inner = close(inner, end, nodes);
        }
    }
    *lexer = reading;
    Ok(())
}

/// For a token of this kind that becomes a node: what its node says of the item after its own, and what `inner` is behind it.
/// None for a closing bracket. The opening bracket of the innermost open list is the last of the first `inner` nodes, and
/// `inner` is 0 where no list is open. The first `behind` nodes are those up to the token.
#[inline(always)]
fn placed(kind: TokenKind, inner: usize, behind: usize) -> Option<(usize, usize)>
    ensures { result ≡ placed kind inner behind }
{
    match kind {
        TokenKind::Open => Some((inner, behind)),
        TokenKind::Close => None,
        TokenKind::Text | TokenKind::Quoted | TokenKind::Word => Some((behind, inner)),
    }
}

/// Closes the innermost open list before the next node, where its closing bracket ends at `end`. What `inner` is then comes
/// back.
#[inline(always)]
fn close(inner: usize, end: u64, nodes: &mut Vec<Node>) -> usize
    requires some { 0 < inner }
    requires there { inner ≤ length nodes.old.items }
    ensures { IsListClosed nodes.old.items (inner - 1) (length nodes.old.items) end nodes.new.items result }
{
    let place = nodes.len();
    let list = &mut nodes[inner - 1];
    let around = list.next;
    list.next = place;
    list.token.end = end;
    around
}
