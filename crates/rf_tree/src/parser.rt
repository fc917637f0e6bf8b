//! From items to a tree.

ghost use Rattle.std.specs.Prelude.{◌≡◌, ◌≢◌, ◌⊎◌, ℕ, ◌+◌, ◌-◌, ◌≤◌, ◌<◌, true, false, List, [], Some, length};
ghost use Rattle.std.specs.Prelude.{map, IfOk, IfErr, OnOk, MatchOption};
ghost use Rattle.std.specs.Str.{chars};
ghost use Rattle.rf_base_grammar.specs.Token.{Token, item_of};
ghost use Rattle.rf_base_tree.specs.Trees.{Leaf, Point, Comment, Forest};
ghost use Rattle.rf_base_tree.specs.Dotting.{ends_in_dot};
ghost use Rattle.rf_base_tree.specs.Formed.{Treed};
ghost use Rattle.rf_base_tree.specs.Places.{Frame, IsPlace};
ghost use Rattle.rf_base_tree.specs.Moves.{Move, Goes, push, datum_may_stand, dot_may_stand, unless_bad_dot, begin};
ghost use Rattle.rf_base_tree.specs.Moves.{behind_datum, close, move_at};
ghost use Rattle.rf_tree.specs.Told.{told_node};
ghost use Rattle.rf_tree.specs.Texts.{AreTokensOf, AreItemsOf};
ghost use Rattle.rf_tree.specs.Nodes.{AreTreeOf};
ghost use Rattle.rf_tree.specs.Kept.{IsTreeOf};
ghost use Rattle.rf_tree.specs.Dots.{dotting_of};
ghost use Rattle.rf_tree.specs.Parsing.{IsItem, frame_of, IsOpenedAt, IsDotAt, IsWholeAt, IsCloserAt, StandsAt};
ghost use Rattle.rf_tree.specs.Next.{IsAtBehind, HoldNext, IsOfDatum, EndInDatum, IsStop, StopsBefore};
ghost use Rattle.rf_tree.specs.Parsing.{Follows, Moves, Fails, IsTop, IsNotTop, IsAsBefore, Keeps, Pops, Begins};
ghost use Rattle.rf_tree.specs.Parsing.{TooDeepHere, CannotEnd, Leaves, Ends, Stands, Carries, WrapsPrefix};
ghost use Rattle.rf_tree.specs.Parsing.{CommentsOut, kind_left_open, TreeFault, HasNoRefusal, IsRefusal, HasNoTree};
ghost use Rattle.rf_tree.specs.declared.parser.Opened.TheVariants.{Prefix, Skip};

use crate::dots::Dots;
use crate::levels::Level;
use crate::nodes::{At, Node, Nodes};
use crate::sorts::trails;
use crate::trees::{Tree, TreeError, Trees};
use rf_base_grammar::{Bracket, Item, Kind, SOURCE_LIMIT};
use rf_base_tree::{DEPTH_LIMIT, TreeKind};
use std::alloc::{AllocError, Global};
use std::mem;

/// What was begun.
#[derive(Clone, Copy, Debug, PartialEq, Eq)]
pub enum Opened {
    /// A list.
    List {
        /// Its opener's bracket.
        bracket: Bracket,
        /// Whether its opener begins with a hash sign.
        hashed: bool,
    },
    /// A prefix.
    Prefix,
    /// A skip.
    Skip,
}

/// A list, a prefix or a skip that was begun and isn't complete.
#[derive(Debug, Drop)]
pub struct Begun {
    /// What it is.
    pub opened: Opened,
    /// The offset of its first item.
    pub start: u32,
    /// The number of that item.
    pub item: usize,
    /// What stands before it on its level.
    pub before: Level,
}

/// Where the parser is.
#[derive(Debug, Drop)]
pub struct Parser {
    /// The nodes so far, each after those that it names.
    pub nodes: Nodes,
    /// What was begun, the innermost last.
    pub begun: Vec<Begun>,
    /// What stands on the innermost level.
    pub here: Level,
    /// The room of levels that were left, for those to come.
    pub spare: Vec<Vec<At>>,
}

/// The tree of the items, which are those of `src`, as they were read or settled.
///
/// The first item that can't go on is refused, or the end. At a closer: NothingAfter at the prefix or skip on top,
/// CloseWithout where nothing was begun, CloseMismatch where the list on top has another bracket, BadDot where the list
/// ends in a dot. At a dot: BadDot where it isn't lawful. At the first item of a datum: BadDot where the list on top
/// has one dot and one datum behind it. At what begins more: TooDeep where 500 things are begun. At the end:
/// NothingAfter at the prefix or skip on top, OpenList at the opener of the list on top. `TreeError::Memory` is want of
/// memory.
///
/// Of `'()b` a prefix with the list behind it and a leaf stand at the top; `(a]` is refused as CloseMismatch at 2.
pub fn parse<'s>(alloc: Global, src: &'s str, items: Vec<Item>) -> Result<Tree<'s>, TreeError>
    requires { AreItemsOf (chars src.now) items.items }
    ensures tree { IfOk result (λ tree. (ts : List Token) → AreTokensOf (chars src.now) ts
        → items.items ≡ map item_of ts → AreTreeOf ts tree.nodes tree.tops.items) }
    ensures kept { IfOk result (λ tree. (tree.src.now ≡ src.now) × (tree.items.items ≡ items.items)) }
    ensures refused { IfErr result (λ fault. (ts : List Token) → AreTokensOf (chars src.now) ts
        → items.items ≡ map item_of ts → TreeFault ts fault) }
    ensures accepted { IfOk result (λ tree. (ts : List Token) → AreTokensOf (chars src.now) ts
        → items.items ≡ map item_of ts → HasNoRefusal ts) }
    ensures means { IfOk result (λ tree. (ts : List Token) → length src.now ≤ SOURCE_LIMIT
        → AreTokensOf (chars src.now) ts → items.items ≡ map item_of ts
        → (trees : Forest) × Treed ts trees × IsTreeOf tree ts trees) }
    ensures untreed { IfErr result (λ fault. IsRefusal fault → (ts : List Token) → AreTokensOf (chars src.now) ts
        → items.items ≡ map item_of ts → HasNoTree ts) }
{
    let nodes = Nodes::with_capacity(alloc, items.len())?;
    let mut tree = Tree {
        src,
        items,
        nodes,
        tops: Vec::new(alloc),
    };
    parse_next(alloc, &mut tree, 0, usize::MAX)?;
    Ok(tree)
}

/// Puts the trees that come next at the top of the file, from the item of this number on, in place of those that the
/// tree has, and in their room: those of at least `least` items, on to where slots of the file end, or to the last
/// item. The answer is the number of the item behind them.
///
/// What can't go on is refused as by `parse`, and then what the tree has has no meaning. From the item 0 on,
/// `usize::MAX` items of `a (b) ; c` are all of them; of 1 item the answer is 1, and of 2 it is 5: the comment belongs
/// to the list.
#[inline(never)]
pub fn parse_next(
    alloc: Global,
    tree: &mut Tree,
    from: usize,
    least: usize,
) -> Result<usize, TreeError>
    requires items { AreItemsOf (chars tree.now.src.now) tree.now.items.items }
    requires there { from ≤ length tree.now.items.items }
    requires some { 1 ≤ least }
    ensures kept { (tree.new.src.now ≡ tree.old.src.now) × (tree.new.items ≡ tree.old.items) }
    ensures onward { IfOk result (λ next. from < length tree.new.items.items → from < next) }
    ensures enough { IfOk result (λ next. (next ≡ length tree.new.items.items)
        ⊎ ((next < length tree.new.items.items) × (from + least ≤ next))) }
    ensures trees { IfOk result (λ next. (ts : List Token) (done : Forest) → AreTokensOf (chars tree.old.src.now) ts
        → tree.old.items.items ≡ map item_of ts → IsPlace ts from [] done
        → HoldNext ts done tree.new.nodes tree.new.tops.items next) }
    ensures refused { IfErr result (λ fault. (ts : List Token) (done : Forest) → AreTokensOf (chars tree.old.src.now) ts
        → tree.old.items.items ≡ map item_of ts → IsPlace ts from [] done → TreeFault ts fault) }
{
    let room = tree.put_trees(Trees::none(alloc));
    let mut parser = Parser::before_trees(alloc, room);
    let next = parser.read(alloc, tree.items.as_slice(), from, least)?;
    let trees = parser.finish()?;
    tree.put_trees(trees);
    Ok(next)
}

impl Parser {
    // Before the first of trees, in the room of these.
    fn before_trees(alloc: Global, room: Trees) -> Self
        ensures { (ts : List Token) (done : Forest) (n : ℕ) → IsPlace ts n [] done → IsAtBehind ts done n result }
    {
        let Trees {
            mut nodes,
            mut tops,
        } = room;
        nodes.clear();
        tops.clear();
        Parser {
            nodes,
            begun: Vec::new(alloc),
            here: Level {
                nodes: tops,
                dots: Dots::NoData,
            },
            spare: Vec::new(alloc),
        }
    }

    // Takes items one after another, from that of this number on: at least so many, on to where slots end, or to the
    // last. The answer is the number of the next.
    fn read(
        &mut self,
        alloc: Global,
        items: &[Item],
        from: usize,
        least: usize,
    ) -> Result<usize, TreeError>
        requires items { (text : List ℕ) × AreItemsOf text items.now }
        requires there { from ≤ length items.now }
        requires some { 1 ≤ least }
        ensures onward { IfOk result (λ next. from < length items.now → from < next) }
        ensures enough { IfOk result (λ next. (next ≡ length items.now)
            ⊎ ((next < length items.now) × (from + least ≤ next) × StopsBefore items.now next self.new)) }
        ensures read { IfOk result (λ next. (text : List ℕ) (ts : List Token) (done : Forest) → AreTokensOf text ts
            → items.now ≡ map item_of ts → IsAtBehind ts done from self.old → IsAtBehind ts done next self.new) }
        ensures refused { IfErr result (λ fault. (text : List ℕ) (ts : List Token) (done : Forest) → AreTokensOf text ts
            → items.now ≡ map item_of ts → IsAtBehind ts done from self.old → TreeFault ts fault) }
    {
        let enough = from.saturating_add(least);
        let mut number = from;
        while number < items.len() {
            let item = &items[number];
            if number >= enough && self.ends_slots(item) {
                return Ok(number);
            }
            self.take(alloc, number, item)?;
            number += 1;
        }
        Ok(number)
    }

    // Whether slots of the file end before this item: nothing is begun, a datum stands last, and the item is no comment
    // on its line.
    fn ends_slots(&self, item: &Item) -> bool
        ensures { result ≡ true → IsStop self.now item.now }
    {
        self.begun.is_empty() && !trails(item) && self.ends_in_datum()
    }

    // Whether what stands here ends in a datum or a dot.
    fn ends_in_datum(&self) -> bool
        ensures { result ≡ true → EndInDatum self.now.nodes self.now.here.nodes.items }
    {
        let Some(at) = self.here.nodes.last() else {
            return false;
        };
        match self.nodes.get(*at) {
            None => false,
            Some(node) => is_of_datum(node),
        }
    }

    // Takes the next item, which has this number.
    fn take(&mut self, alloc: Global, number: usize, item: &Item) -> Result<(), TreeError>
        requires { item.now.start ≤ item.now.end }
        ensures goes_on { OnOk result (Moves self.old self.new (λ ts. IsItem ts number item.now)
            (λ ts frames here. move_at ts item.now.kind number frames here)) }
        ensures refused { IfErr result (λ fault. Fails self.old fault (λ ts. IsItem ts number item.now)
            (λ ts frames here. move_at ts item.now.kind number frames here)) }
    {
        match item.kind {
            Kind::Opener(bracket) => {
                let hashed = item.end - item.start > 1;
                self.begin_datum(alloc, number, item.start, Opened::List { bracket, hashed })
            }
            Kind::Closer(bracket) => self.close(number, item.start, bracket),
            Kind::Prefix => self.begin_datum(alloc, number, item.start, Opened::Prefix),
            Kind::Skip => self.begin(alloc, number, item.start, Opened::Skip),
            Kind::Dot => self.add_dot(number, item.start),
            Kind::Block | Kind::Line => Ok(self.add_comment(number)?),
            Kind::Atom | Kind::Str | Kind::Here | Kind::Lang => self.add_leaf(number, item.start),
        }
    }

    // The innermost thing that was begun.
    fn top(&self) -> Option<Opened>
        ensures { IsTop self.now.begun.items result }
    {
        Some(self.begun.last()?.opened)
    }

    // Whether a datum can stand here, in this innermost thing.
    fn takes_datum(&self, top: Option<Opened>) -> bool
        requires { IsTop self.now.begun.items top }
        ensures { (ts : List Token) (frames : List Frame) (here : Forest) → StandsAt ts self.now frames here
            → result ≡ datum_may_stand frames here }
    {
        match top {
            Some(Opened::List { .. }) => self.here.dots.takes_datum(),
            Some(Opened::Prefix | Opened::Skip) | None => true,
        }
    }

    // Whether a dot can stand here.
    fn takes_dot(&self) -> bool
        ensures { (ts : List Token) (frames : List Frame) (here : Forest) → StandsAt ts self.now frames here
            → result ≡ dot_may_stand ts frames here }
    {
        match self.top() {
            Some(Opened::List { hashed, .. }) => !hashed && self.here.dots.takes_dot(),
            Some(Opened::Prefix | Opened::Skip) | None => false,
        }
    }

    // Begins a list, a prefix or a skip.
    #[inline(always)]
    fn begin(
        &mut self,
        alloc: Global,
        number: usize,
        start: u32,
        what: Opened,
    ) -> Result<(), TreeError>
        ensures goes_on { OnOk result (Begins what number start self.old self.new) }
        ensures refused { IfErr result (λ fault. TooDeepHere start self.old fault) }
    {
        if self.begun.len() >= DEPTH_LIMIT {
            return Err(TreeError::Refused {
                kind: TreeKind::TooDeep,
                offset: start,
            });
        }
        let nodes = self.room(alloc);
        let before = Level {
            nodes: mem::replace(&mut self.here.nodes, nodes),
            dots: mem::replace(&mut self.here.dots, Dots::NoData),
        };
        self.begun.push(Begun {
            opened: what,
            before,
            item: number,
            start,
        })?;
        Ok(())
    }

    // No nodes, with room that was used before if there is some.
    #[inline(always)]
    fn room(&mut self, alloc: Global) -> Vec<At>
        ensures none { result.items ≡ [] }
        ensures same { IsAsBefore self.old self.new }
    {
        match self.spare.pop() {
            Some(mut nodes) => {
                nodes.clear();
                nodes
            }
            None => Vec::new(alloc),
        }
    }

    // Begins a list or a prefix.
    #[inline(always)]
    fn begin_datum(
        &mut self,
        alloc: Global,
        number: usize,
        start: u32,
        what: Opened,
    ) -> Result<(), TreeError>
        ensures goes_on { OnOk result (Moves self.old self.new (λ ts. IsOpenedAt ts what number start)
            (λ ts frames here. unless_bad_dot (datum_may_stand frames here) number
            (begin (frame_of what number here) number frames))) }
        ensures refused { IfErr result (λ fault. Fails self.old fault (λ ts. IsOpenedAt ts what number start)
            (λ ts frames here. unless_bad_dot (datum_may_stand frames here) number
            (begin (frame_of what number here) number frames))) }
    {
        if !self.takes_datum(self.top()) {
            return Err(TreeError::Refused {
                kind: TreeKind::BadDot,
                offset: start,
            });
        }
        self.begin(alloc, number, start, what)
    }

    // Adds a dot.
    fn add_dot(&mut self, number: usize, start: u32) -> Result<(), TreeError>
        ensures goes_on { OnOk result (Moves self.old self.new (λ ts. IsDotAt ts number start)
            (λ ts frames here. unless_bad_dot (dot_may_stand ts frames here) number
            (Goes frames (push here (Point number))))) }
        ensures refused { IfErr result (λ fault. Fails self.old fault (λ ts. IsDotAt ts number start)
            (λ ts frames here. unless_bad_dot (dot_may_stand ts frames here) number
            (Goes frames (push here (Point number))))) }
    {
        if !self.takes_dot() {
            return Err(TreeError::Refused {
                kind: TreeKind::BadDot,
                offset: start,
            });
        }
        let at = self.keep(Node::Leaf(number))?;
        Ok(self.here.add_dot(at)?)
    }

    // Adds a comment of one item.
    fn add_comment(&mut self, number: usize) -> Result<(), AllocError>
        ensures { OnOk result (Moves self.old self.new (λ ts. number < length ts)
            (λ ts frames here. Goes frames (push here (Comment number)))) }
    {
        let at = self.keep(Node::Comment(number))?;
        self.here.add_comment(at)
    }

    // Adds a datum of one item.
    fn add_leaf(&mut self, number: usize, start: u32) -> Result<(), TreeError>
        ensures goes_on { OnOk result (Moves self.old self.new (λ ts. IsWholeAt ts number start)
            (λ ts frames here. unless_bad_dot (datum_may_stand frames here) number
            (behind_datum frames here (Leaf number)))) }
        ensures refused { IfErr result (λ fault. Fails self.old fault (λ ts. IsWholeAt ts number start)
            (λ ts frames here. unless_bad_dot (datum_may_stand frames here) number
            (behind_datum frames here (Leaf number)))) }
    {
        let top = self.top();
        if !self.takes_datum(top) {
            return Err(TreeError::Refused {
                kind: TreeKind::BadDot,
                offset: start,
            });
        }
        Ok(self.stand(top, Node::Leaf(number))?)
    }

    // Takes a closer of this bracket.
    fn close(&mut self, number: usize, start: u32, bracket: Bracket) -> Result<(), TreeError>
        ensures goes_on { OnOk result (Moves self.old self.new (λ ts. IsCloserAt ts bracket number start)
            (λ ts frames here. close ts bracket number frames here)) }
        ensures refused { IfErr result (λ fault. Fails self.old fault (λ ts. IsCloserAt ts bracket number start)
            (λ ts frames here. close ts bracket number frames here)) }
    {
        match self.begun.pop() {
            None => Err(TreeError::Refused {
                kind: TreeKind::CloseWithout,
                offset: start,
            }),
            Some(begun) => match begun.opened {
                Opened::Prefix | Opened::Skip => Err(TreeError::Refused {
                    kind: TreeKind::NothingAfter,
                    offset: begun.start,
                }),
                Opened::List { bracket: open, .. } => {
                    self.check_end(open == bracket, start)?;
                    Ok(self.end_list(begun, number)?)
                }
            },
        }
    }

    // Whether the list on top can end here, where its bracket is the closer's or isn't.
    fn check_end(&self, pairs: bool, start: u32) -> Result<(), TreeError>
        ensures goes_on { OnOk result ((pairs ≡ true) × (ends_in_dot (dotting_of self.now.here.dots) ≡ false)) }
        ensures refused { IfErr result (λ fault. CannotEnd pairs start self.now.here fault) }
    {
        if !pairs {
            return Err(TreeError::Refused {
                kind: TreeKind::CloseMismatch,
                offset: start,
            });
        }
        if self.here.dots.ends_in_dot() {
            return Err(TreeError::Refused {
                kind: TreeKind::BadDot,
                offset: start,
            });
        }
        Ok(())
    }

    // Ends this list, which was begun last and is taken away.
    fn end_list(&mut self, list: Begun, number: usize) -> Result<(), AllocError>
        ensures { OnOk result (Ends list number self.old self.new) }
    {
        let Begun { before, item, .. } = list;
        let nodes = self.leave(before);
        let top = self.top();
        self.stand(
            top,
            Node::List {
                opener: item,
                entries: nodes.as_slice(),
                closer: number,
            },
        )?;
        Ok(self.spare.push(nodes)?)
    }

    // Goes back to the level before, and gives the nodes that stood here.
    #[inline(always)]
    fn leave(&mut self, before: Level) -> Vec<At>
        ensures nodes { result.items ≡ self.old.here.nodes.items }
        ensures left { Leaves before self.old self.new }
    {
        mem::replace(&mut self.here, before).nodes
    }

    // Keeps a node behind the others.
    #[inline(always)]
    fn keep(&mut self, node: Node<'_>) -> Result<At, AllocError>
        ensures { IfOk result (λ at. (at.0 ≡ length self.old.nodes)
            × Keeps (told_node node.entry) self.old self.new) }
    {
        self.nodes.push(node)
    }

    // Stands a datum here, in this innermost thing: it is one more on this level, or completes what is on top.
    #[inline(always)]
    fn stand(&mut self, top: Option<Opened>, node: Node<'_>) -> Result<(), AllocError>
        requires { IsTop self.now.begun.items top }
        ensures { OnOk result (Stands (told_node node.entry) self.old self.new) }
    {
        let at = self.keep(node)?;
        if wants_datum(top) {
            self.complete(at)
        } else {
            self.here.add_datum(at)
        }
    }

    // Stands the datum at this node here: it completes the prefixes on top, and the skip below them.
    #[inline(never)]
    fn complete(&mut self, datum: At) -> Result<(), AllocError>
        ensures { OnOk result ((ts : List Token) (move : Move)
            → Carries ts self.old datum move → Follows ts self.new move) }
    {
        let mut at = datum;
        while let Some(begun) = self.pop_prefix() {
            at = self.wrap(begun, at)?;
        }
        self.end_datum(at)
    }

    // Takes the prefix on top away, if one is.
    fn pop_prefix(&mut self) -> Option<Begun>
        ensures { MatchOption result (IsAsBefore self.old self.new × IsNotTop Prefix self.old.begun.items)
            (λ begun. (begun.opened ≡ Prefix) × Pops begun self.old self.new) }
    {
        match self.top() {
            Some(Opened::Prefix) => self.begun.pop(),
            Some(Opened::List { .. } | Opened::Skip) | None => None,
        }
    }

    // Takes the skip on top away, if one is.
    fn pop_skip(&mut self) -> Option<Begun>
        ensures { MatchOption result (IsAsBefore self.old self.new × IsNotTop Skip self.old.begun.items)
            (λ begun. (begun.opened ≡ Skip) × Pops begun self.old self.new) }
    {
        match self.top() {
            Some(Opened::Skip) => self.begun.pop(),
            Some(Opened::List { .. } | Opened::Prefix) | None => None,
        }
    }

    // The datum of this prefix, which was begun last and is taken away: the prefix, what stands here, and the datum at
    // this node.
    fn wrap(&mut self, prefix: Begun, inner: At) -> Result<At, AllocError>
        ensures { IfOk result (λ at. (at.0 ≡ length self.old.nodes)
            × WrapsPrefix prefix inner self.old self.new) }
    {
        let Begun { before, item, .. } = prefix;
        let nodes = self.leave(before);
        let at = self.keep(Node::Prefixed {
            item,
            lead: nodes.as_slice(),
            inner,
        })?;
        self.spare.push(nodes)?;
        Ok(at)
    }

    // Stands a datum here, where no prefix is on top: it is one more on this level, or completes the skip on top.
    #[inline(always)]
    fn end_datum(&mut self, at: At) -> Result<(), AllocError>
        ensures { OnOk result (IsNotTop Prefix self.old.begun.items → (ts : List Token) (move : Move)
            → Carries ts self.old at move → Follows ts self.new move) }
    {
        match self.pop_skip() {
            None => self.here.add_datum(at),
            Some(skip) => self.comment_out(skip, at),
        }
    }

    // Makes a comment of this skip, which was begun last and is taken away, what stands here, and the datum at this
    // node.
    fn comment_out(&mut self, skip: Begun, inner: At) -> Result<(), AllocError>
        ensures { OnOk result (CommentsOut skip inner self.old self.new) }
    {
        let Begun { before, item, .. } = skip;
        let nodes = self.leave(before);
        let at = self.keep(Node::DatumComment {
            item,
            lead: nodes.as_slice(),
            inner,
        })?;
        self.spare.push(nodes)?;
        self.here.add_comment(at)
    }

    // The trees, where nothing is left open.
    fn finish(self) -> Result<Trees, TreeError>
        ensures whole { IfOk result (λ trees. (self.begun.items ≡ []) × (trees.nodes ≡ self.nodes)
            × (trees.tops.items ≡ self.here.nodes.items)) }
        ensures open { IfErr result (λ fault. self.begun.items ≢ []) }
        ensures refused { IfErr result (λ fault. (ts : List Token) (done : Forest) → IsAtBehind ts done (length ts) self
            → TreeFault ts fault) }
    {
        let Parser {
            nodes,
            mut begun,
            here,
            ..
        } = self;
        match begun.pop() {
            None => {
                let Level { nodes: tops, .. } = here;
                Ok(Trees { nodes, tops })
            }
            Some(last) => Err(TreeError::Refused {
                kind: left_open(last.opened),
                offset: last.start,
            }),
        }
    }
}

// Whether the node is that of a datum, or of a dot.
fn is_of_datum(node: Node<'_>) -> bool
    ensures { result ≡ true → IsOfDatum (told_node node.entry) }
{
    match node {
        Node::Leaf(_) | Node::Prefixed { .. } | Node::List { .. } => true,
        Node::Comment(_) | Node::DatumComment { .. } => false,
    }
}

// Whether a datum completes this, which is a prefix or a skip then.
fn wants_datum(top: Option<Opened>) -> bool
    ensures { result ≡ false → (top ≢ Some Prefix) × (top ≢ Some Skip) }
{
    match top {
        Some(Opened::Prefix | Opened::Skip) => true,
        Some(Opened::List { .. }) | None => false,
    }
}

// What is wrong where this is left open at the end.
fn left_open(what: Opened) -> TreeKind
    ensures { result ≡ kind_left_open what }
{
    match what {
        Opened::List { .. } => TreeKind::OpenList,
        Opened::Prefix | Opened::Skip => TreeKind::NothingAfter,
    }
}
