// The rule that a run takes, by its node's kind. A rule that follows the tree down is given 64 levels, and no opened tree has more.
ghost use Rattle.lent.specs.Loans.{Made, script};
ghost use Rattle.rules.specs.Rules.{content, arguments, by_expr, by_part, rule, layout};

use bodies::body::variant;
use bodies::fields::{struct_body, tuple_body};
use exprs::Lay;
use kinds::bytes;
use lent::formatter::Formatter;
use lent::ring::Queue;
use meaning::answer::Refusal;
use parts::sorts::{is_decl, is_stmt};
use paths::path::path_generics;
use patterns::fn_args::fn_args;
use patterns::pat::{pat, pat_array, pat_object, pat_tuple};
use tree::record::RecordNo;
use tree::table::{kind_at, size};
use uses::item_use::{item_use_group, use_node};
use walk::stream::records_of;

// The statements of a body that is no block's: a whole script.
pub fn content(
    src: &[u8],
    table: &[u32],
    fmt: &mut Formatter,
    queue: &mut Queue,
    out: &mut [u8],
    k: RecordNo,
)
    ensures { Made src table fmt queue out (content (script src table) k) }
{
    let mut p = records_of(table, k);
    Lay::stmts(src, table, fmt, queue, out, &mut p, 63);
    p.left_over(table, fmt);
}

// A call's arguments, in their parentheses.
fn arguments(
    src: &[u8],
    table: &[u32],
    fmt: &mut Formatter,
    queue: &mut Queue,
    out: &mut [u8],
    k: RecordNo,
)
    ensures { Made src table fmt queue out (arguments (script src table) k) }
{
    Lay::exprs(
        src,
        table,
        fmt,
        queue,
        out,
        k,
        bytes::PAREN_OPEN,
        bytes::PAREN_CLOSE,
        63,
    );
}

// A node in the place of an expression; a leaf has no rule of its own.
fn by_expr(
    src: &[u8],
    table: &[u32],
    fmt: &mut Formatter,
    queue: &mut Queue,
    out: &mut [u8],
    k: RecordNo,
    kind: u8,
)
    ensures { Made src table fmt queue out (by_expr (script src table) kind k) }
{
    if kind < 0x80 {
        fmt.refuse(Refusal::NoRule(k));
        return;
    }
    Lay::inner(src, table, fmt, queue, out, k, 64);
}

// A part of an item, of a path or of a pattern.
fn by_part(
    src: &[u8],
    table: &[u32],
    fmt: &mut Formatter,
    queue: &mut Queue,
    out: &mut [u8],
    k: RecordNo,
    kind: u8,
)
    ensures { Made src table fmt queue out (by_part (script src table) kind k) }
{
    match kind {
        bytes::ITEM_USE_PATH => use_node(src, table, fmt, queue, out, k, 64),
        bytes::ITEM_USE_GROUP => item_use_group(src, table, fmt, queue, out, k, 64),
        bytes::VARIANT => variant(src, table, fmt, queue, out, k),
        bytes::STRUCT_BODY => struct_body(src, table, fmt, queue, out, k),
        bytes::TUPLE_BODY => tuple_body(src, table, fmt, queue, out, k),
        bytes::FN_ARGS => fn_args(src, table, fmt, queue, out, k),
        bytes::PATH_GENERICS => path_generics(src, table, fmt, queue, out, k, 64),
        bytes::PAT => pat(src, table, fmt, queue, out, k, 64),
        bytes::PAT_ARRAY => pat_array(src, table, fmt, queue, out, k, 64),
        bytes::PAT_TUPLE => pat_tuple(src, table, fmt, queue, out, k, 64),
        bytes::PAT_OBJECT => pat_object(src, table, fmt, queue, out, k, 64),
        _ => by_expr(src, table, fmt, queue, out, k, kind),
    }
}

// A kind for which no rule is named is refusal 9.
pub fn rule(
    src: &[u8],
    table: &[u32],
    fmt: &mut Formatter,
    queue: &mut Queue,
    out: &mut [u8],
    k: RecordNo,
)
    ensures { Made src table fmt queue out (rule (script src table) k) }
{
    let kind = kind_at(table, k);
    if is_stmt(kind) {
        Lay::stmt(src, table, fmt, queue, out, k, kind, 64);
        return;
    }
    if is_decl(kind) {
        Lay::decl(src, table, fmt, queue, out, k, 64);
        return;
    }
    match kind {
        bytes::BLOCK_BODY => content(src, table, fmt, queue, out, k),
        bytes::EXPR_CALL => arguments(src, table, fmt, queue, out, k),
        bytes::CONDITION => Lay::let_(src, table, fmt, queue, out, k, false, 64),
        _ => by_part(src, table, fmt, queue, out, k, kind),
    }
}

// Refusal 11, then the rule of the node.
pub fn layout(
    src: &[u8],
    table: &[u32],
    fmt: &mut Formatter,
    queue: &mut Queue,
    out: &mut [u8],
    k: RecordNo,
)
    ensures { Made src table fmt queue out (layout (script src table) k) }
{
    if size(table).0 <= k.0 {
        fmt.refuse(Refusal::NoNode(k));
        return;
    }
    rule(src, table, fmt, queue, out, k);
}
