// What the byte of a tree's record means. docs/KINDS.md is the same list for people, specs/Facts.antt for proofs.
#![tactic(auto)]

ghost use Rattle.std.specs.Prelude.{◌≡◌, ℕ};
ghost use Rattle.kinds.specs.Facts.{byte_of};
ghost use Rattle.kinds.specs.Kinds.{kind_of, is_leaf};

pub mod bytes;
mod class;

pub use class::{Class, class_at, class_of, has_rule, is_expr, needs_semi, semi_at};

// A case has the Rust's name, a word or a mark that of what `K!` stands for. A statement's is the table's, as several bytes are one kind of
// the Rust's there; so are LitOther and Op, each of which is several of its kinds.
#[derive(Clone, Copy, PartialEq, Eq)]
pub enum Kind {
    // White space and comments.
    Whitespace = 0x00,
    Comment = 0x01,
    MultilineComment = 0x02,

    // Tokens.
    Ident = 0x03,
    Label = 0x04,
    Number = 0x05,
    Str = 0x06,
    LitOther = 0x07,
    ObjectKey = 0x08,
    AnonymousObjectKey = 0x09,
    PatIgnore = 0x0A,

    // Delimiters.
    OpenParenthesis = 0x10,
    CloseParenthesis = 0x11,
    OpenBrace = 0x12,
    CloseBrace = 0x13,
    OpenBracket = 0x14,
    CloseBracket = 0x15,
    OpenEmpty = 0x16,
    CloseEmpty = 0x17,

    // Marks.
    Comma = 0x18,
    SemiColon = 0x19,
    Colon = 0x1A,
    ColonColon = 0x1B,
    Eq = 0x1C,
    Rocket = 0x1D,
    Dash = 0x1E,
    DotDot = 0x1F,
    DotDotEq = 0x20,
    Lt = 0x21,
    Gt = 0x22,
    Pipe = 0x23,
    PipePipe = 0x24,
    QuestionMark = 0x25,
    Dot = 0x26,
    Bang = 0x27,
    Pound = 0x28,
    Star = 0x29,
    Op = 0x2A,

    // Words.
    Let = 0x30,
    In = 0x31,
    If = 0x32,
    Else = 0x33,
    While = 0x34,
    Loop = 0x35,
    For = 0x36,
    Break = 0x37,
    Continue = 0x38,
    Return = 0x39,
    Yield = 0x3A,
    Select = 0x3B,
    Default = 0x3C,
    Match = 0x3D,
    As = 0x3E,
    Await = 0x3F,
    Struct = 0x40,
    Enum = 0x41,
    Fn = 0x42,
    Use = 0x43,
    Impl = 0x44,
    Mod = 0x45,
    Const = 0x46,
    Pub = 0x47,
    Async = 0x48,
    Move = 0x49,
    Super = 0x4A,
    SelfValue = 0x4B,
    Crate = 0x4C,

    // Structure.
    BlockBody = 0x80,
    Block = 0x81,
    Attribute = 0x82,
    InnerAttribute = 0x83,
    Modifiers = 0x84,
    ModifierSuper = 0x85,
    ModifierSelf = 0x86,
    ModifierCrate = 0x87,
    ModifierIn = 0x88,

    // Statements, each without and with a semicolon needed.
    Item = 0x90,
    ItemSemi = 0x91,
    ConstStmt = 0x92,
    ConstSemi = 0x93,
    Local = 0x94,
    LocalSemi = 0x95,
    Expr = 0x96,
    ExprSemi = 0x97,

    // Items and their parts.
    ItemStruct = 0x98,
    ItemEnum = 0x99,
    ItemFn = 0x9A,
    ItemUse = 0x9B,
    ItemImpl = 0x9C,
    ItemMod = 0x9D,
    ItemFileMod = 0x9E,
    ItemConst = 0x9F,
    ItemUsePath = 0xA0,
    ItemUseGroup = 0xA1,
    Variant = 0xA2,
    StructBody = 0xA3,
    TupleBody = 0xA4,
    EmptyBody = 0xA5,
    Field = 0xA6,
    FnArgs = 0xA7,

    // Paths and patterns.
    Path = 0xB0,
    PathGenerics = 0xB1,
    Pat = 0xB2,
    PatArray = 0xB3,
    PatTuple = 0xB4,
    PatObject = 0xB5,

    // Expressions and their parts.
    Lit = 0xC0,
    TemplateString = 0xC1,
    ExprAssign = 0xC2,
    ExprArray = 0xC3,
    ExprTuple = 0xC4,
    ExprObject = 0xC5,
    ExprBinary = 0xC6,
    ExprOperator = 0xC7,
    ExprUnary = 0xC8,
    ExprGroup = 0xC9,
    ExprEmptyGroup = 0xCA,
    ExprIf = 0xCB,
    ExprElse = 0xCC,
    ExprElseIf = 0xCD,
    Condition = 0xCE,
    ExprWhile = 0xCF,
    ExprLoop = 0xD0,
    ExprFor = 0xD1,
    ExprBreak = 0xD2,
    ExprContinue = 0xD3,
    ExprReturn = 0xD4,
    ExprYield = 0xD5,
    ExprSelect = 0xD6,
    ExprSelectArm = 0xD7,
    ExprMatch = 0xD8,
    ExprMatchArm = 0xD9,
    ExprRangeFull = 0xDA,
    ExprRangeFrom = 0xDB,
    ExprRangeTo = 0xDC,
    ExprRangeToInclusive = 0xDD,
    ExprRange = 0xDE,
    ExprRangeInclusive = 0xDF,
    ExprClosure = 0xE0,
    ClosureArguments = 0xE1,
    ExprChain = 0xE2,
    ExprTry = 0xE3,
    ExprAwait = 0xE4,
    ExprField = 0xE5,
    ExprCall = 0xE6,
    ExprIndex = 0xE7,

    // What the parser could not read.
    Error = 0xFE,

    // Every byte without a row.
    Unknown = 0xFF,
}

impl Kind {
    // The kind's byte; Unknown's is the last of those without a row.
    #[inline(always)]
    #[tactic(auto, unfolding(crate::specs::Facts::byte_of, crate::specs::Facts::facts_of))]
    pub fn byte(self) -> u8
        ensures { result ≡ byte_of self }
    {
        self as u8
    }
}

// A kind, or the byte of one: what a rule asks for is either.
pub trait KindByte: Copy {
    ghost as_byte: { Self → ℕ };

    fn as_byte(self) -> u8
        ensures { result ≡ as_byte self };
}

impl KindByte for u8 {
    ghost as_byte = { λ b. b };

    #[inline(always)]
    fn as_byte(self) -> u8 {
        self
    }
}

impl KindByte for Kind {
    ghost as_byte = { byte_of };

    #[inline(always)]
    fn as_byte(self) -> u8 {
        self.byte()
    }
}

// What a byte without a row means is Unknown.
impl From<u8> for Kind {
    ghost from_gives = { λ byte kind. kind ≡ kind_of byte };

    #[tactic(auto, using(crate::proofs::Lookup::miss), unfolding(crate::specs::Kinds::kind_of, crate::specs::Kinds::kinds, crate::specs::Kinds::find, crate::specs::Facts::byte_of, crate::specs::Facts::facts_of))]
    fn from(byte: u8) -> Kind {
        match byte {
            bytes::WS => Kind::Whitespace,
            bytes::LINE_COMMENT => Kind::Comment,
            bytes::BLOCK_COMMENT => Kind::MultilineComment,
            bytes::IDENT => Kind::Ident,
            bytes::LABEL => Kind::Label,
            bytes::NUMBER => Kind::Number,
            bytes::STR => Kind::Str,
            bytes::LIT_OTHER => Kind::LitOther,
            bytes::OBJ_KEY => Kind::ObjectKey,
            bytes::ANON_KEY => Kind::AnonymousObjectKey,
            bytes::PAT_IGNORE => Kind::PatIgnore,
            bytes::PAREN_OPEN => Kind::OpenParenthesis,
            bytes::PAREN_CLOSE => Kind::CloseParenthesis,
            bytes::BRACE_OPEN => Kind::OpenBrace,
            bytes::BRACE_CLOSE => Kind::CloseBrace,
            bytes::BRACKET_OPEN => Kind::OpenBracket,
            bytes::BRACKET_CLOSE => Kind::CloseBracket,
            bytes::EMPTY_OPEN => Kind::OpenEmpty,
            bytes::EMPTY_CLOSE => Kind::CloseEmpty,
            bytes::COMMA => Kind::Comma,
            bytes::SEMI => Kind::SemiColon,
            bytes::COLON => Kind::Colon,
            bytes::COLONCOLON => Kind::ColonColon,
            bytes::EQ => Kind::Eq,
            bytes::ROCKET => Kind::Rocket,
            bytes::MINUS => Kind::Dash,
            bytes::DOTDOT => Kind::DotDot,
            bytes::DOTDOTEQ => Kind::DotDotEq,
            bytes::LT => Kind::Lt,
            bytes::GT => Kind::Gt,
            bytes::PIPE => Kind::Pipe,
            bytes::PIPEPIPE => Kind::PipePipe,
            bytes::QUESTION => Kind::QuestionMark,
            bytes::DOT => Kind::Dot,
            bytes::BANG => Kind::Bang,
            bytes::POUND => Kind::Pound,
            bytes::STAR => Kind::Star,
            bytes::OP => Kind::Op,
            bytes::KW_LET => Kind::Let,
            bytes::KW_IN => Kind::In,
            bytes::KW_IF => Kind::If,
            bytes::KW_ELSE => Kind::Else,
            bytes::KW_WHILE => Kind::While,
            bytes::KW_LOOP => Kind::Loop,
            bytes::KW_FOR => Kind::For,
            bytes::KW_BREAK => Kind::Break,
            bytes::KW_CONTINUE => Kind::Continue,
            bytes::KW_RETURN => Kind::Return,
            bytes::KW_YIELD => Kind::Yield,
            bytes::KW_SELECT => Kind::Select,
            bytes::KW_DEFAULT => Kind::Default,
            bytes::KW_MATCH => Kind::Match,
            bytes::KW_AS => Kind::As,
            bytes::KW_AWAIT => Kind::Await,
            bytes::KW_STRUCT => Kind::Struct,
            bytes::KW_ENUM => Kind::Enum,
            bytes::KW_FN => Kind::Fn,
            bytes::KW_USE => Kind::Use,
            bytes::KW_IMPL => Kind::Impl,
            bytes::KW_MOD => Kind::Mod,
            bytes::KW_CONST => Kind::Const,
            bytes::KW_PUB => Kind::Pub,
            bytes::KW_ASYNC => Kind::Async,
            bytes::KW_MOVE => Kind::Move,
            bytes::KW_SUPER => Kind::Super,
            bytes::KW_SELF => Kind::SelfValue,
            bytes::KW_CRATE => Kind::Crate,
            bytes::BLOCK_BODY => Kind::BlockBody,
            bytes::BLOCK => Kind::Block,
            bytes::ATTR => Kind::Attribute,
            bytes::INNER_ATTR => Kind::InnerAttribute,
            bytes::MODIFIERS => Kind::Modifiers,
            bytes::MOD_SUPER => Kind::ModifierSuper,
            bytes::MOD_SELF => Kind::ModifierSelf,
            bytes::MOD_CRATE => Kind::ModifierCrate,
            bytes::MOD_IN => Kind::ModifierIn,
            bytes::ITEM => Kind::Item,
            bytes::ITEM_SEMI => Kind::ItemSemi,
            bytes::CONST_STMT => Kind::ConstStmt,
            bytes::CONST_SEMI => Kind::ConstSemi,
            bytes::LOCAL => Kind::Local,
            bytes::LOCAL_SEMI => Kind::LocalSemi,
            bytes::EXPR => Kind::Expr,
            bytes::EXPR_SEMI => Kind::ExprSemi,
            bytes::ITEM_STRUCT => Kind::ItemStruct,
            bytes::ITEM_ENUM => Kind::ItemEnum,
            bytes::ITEM_FN => Kind::ItemFn,
            bytes::ITEM_USE => Kind::ItemUse,
            bytes::ITEM_IMPL => Kind::ItemImpl,
            bytes::ITEM_MOD => Kind::ItemMod,
            bytes::ITEM_FILE_MOD => Kind::ItemFileMod,
            bytes::ITEM_CONST => Kind::ItemConst,
            bytes::ITEM_USE_PATH => Kind::ItemUsePath,
            bytes::ITEM_USE_GROUP => Kind::ItemUseGroup,
            bytes::VARIANT => Kind::Variant,
            bytes::STRUCT_BODY => Kind::StructBody,
            bytes::TUPLE_BODY => Kind::TupleBody,
            bytes::EMPTY_BODY => Kind::EmptyBody,
            bytes::FIELD => Kind::Field,
            bytes::FN_ARGS => Kind::FnArgs,
            bytes::PATH => Kind::Path,
            bytes::PATH_GENERICS => Kind::PathGenerics,
            bytes::PAT => Kind::Pat,
            bytes::PAT_ARRAY => Kind::PatArray,
            bytes::PAT_TUPLE => Kind::PatTuple,
            bytes::PAT_OBJECT => Kind::PatObject,
            bytes::LIT => Kind::Lit,
            bytes::TEMPLATE => Kind::TemplateString,
            bytes::EXPR_ASSIGN => Kind::ExprAssign,
            bytes::EXPR_ARRAY => Kind::ExprArray,
            bytes::EXPR_TUPLE => Kind::ExprTuple,
            bytes::EXPR_OBJECT => Kind::ExprObject,
            bytes::EXPR_BINARY => Kind::ExprBinary,
            bytes::OPERATOR => Kind::ExprOperator,
            bytes::EXPR_UNARY => Kind::ExprUnary,
            bytes::EXPR_GROUP => Kind::ExprGroup,
            bytes::EXPR_EMPTY_GROUP => Kind::ExprEmptyGroup,
            bytes::EXPR_IF => Kind::ExprIf,
            bytes::EXPR_ELSE => Kind::ExprElse,
            bytes::EXPR_ELSE_IF => Kind::ExprElseIf,
            bytes::CONDITION => Kind::Condition,
            bytes::EXPR_WHILE => Kind::ExprWhile,
            bytes::EXPR_LOOP => Kind::ExprLoop,
            bytes::EXPR_FOR => Kind::ExprFor,
            bytes::EXPR_BREAK => Kind::ExprBreak,
            bytes::EXPR_CONTINUE => Kind::ExprContinue,
            bytes::EXPR_RETURN => Kind::ExprReturn,
            bytes::EXPR_YIELD => Kind::ExprYield,
            bytes::EXPR_SELECT => Kind::ExprSelect,
            bytes::SELECT_ARM => Kind::ExprSelectArm,
            bytes::EXPR_MATCH => Kind::ExprMatch,
            bytes::MATCH_ARM => Kind::ExprMatchArm,
            bytes::RANGE_FULL => Kind::ExprRangeFull,
            bytes::RANGE_FROM => Kind::ExprRangeFrom,
            bytes::RANGE_TO => Kind::ExprRangeTo,
            bytes::RANGE_TO_INCL => Kind::ExprRangeToInclusive,
            bytes::RANGE => Kind::ExprRange,
            bytes::RANGE_INCL => Kind::ExprRangeInclusive,
            bytes::EXPR_CLOSURE => Kind::ExprClosure,
            bytes::CLOSURE_ARGS => Kind::ClosureArguments,
            bytes::EXPR_CHAIN => Kind::ExprChain,
            bytes::EXPR_TRY => Kind::ExprTry,
            bytes::EXPR_AWAIT => Kind::ExprAwait,
            bytes::EXPR_FIELD => Kind::ExprField,
            bytes::EXPR_CALL => Kind::ExprCall,
            bytes::EXPR_INDEX => Kind::ExprIndex,
            bytes::ERROR => Kind::Error,
            _ => Kind::Unknown,
        }
    }
}

pub fn kind_of(byte: u8) -> Kind
    ensures { result ≡ kind_of byte }
{
    Kind::from(byte)
}

// A leaf's record has no number of records below.
pub fn is_leaf(byte: u8) -> bool
    ensures { result ≡ is_leaf byte }
{
    byte < 0x80
}
