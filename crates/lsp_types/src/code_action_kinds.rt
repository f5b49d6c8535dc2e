//! The kinds of code actions (LSP 3.17, "CodeActionKind"). A dot separates a kind from one below it. A server may have
//! others.

/// `quickfix`: fixes a problem.
pub const QUICK_FIX: &str = "quickfix";
/// `refactor`: changes the shape of the code.
pub const REFACTOR: &str = "refactor";
/// `refactor.extract`: extracts a part, for example into a function.
pub const REFACTOR_EXTRACT: &str = "refactor.extract";
/// `refactor.inline`: inlines a part, for example a function's body.
pub const REFACTOR_INLINE: &str = "refactor.inline";
/// `refactor.rewrite`: rewrites a part in another form.
pub const REFACTOR_REWRITE: &str = "refactor.rewrite";
/// `source`: changes a whole file.
pub const SOURCE: &str = "source";
/// `source.organizeImports`: sorts and groups imports.
pub const SOURCE_ORGANIZE_IMPORTS: &str = "source.organizeImports";
/// `source.fixAll`: fixes all problems that need no choice.
pub const SOURCE_FIX_ALL: &str = "source.fixAll";
