//! The layouts of keys that are measured. `Tiny` is not among them: its slots are spent after three values each.
ghost use Rattle.std.specs.Prelude.{◌≡◌, IfSome, IfNone};
ghost use Rattle.tool_load.specs.Names.{IsNoLayout, layout_name};

/// The layout of the keys.
#[derive(Clone, Copy, Debug, PartialEq, Eq)]
pub enum Layout {
    /// Keys of `sh_key::Wide`.
    Wide,
    /// Keys of `sh_key::Tagged`.
    Tagged,
    /// Keys of `sh_key::Deep`.
    Deep,
}

/// The name of a layout.
pub fn name(layout: Layout) -> &'static str
    ensures { result.now ≡ layout_name layout }
{
    match layout {
        Layout::Wide => "wide",
        Layout::Tagged => "tagged",
        Layout::Deep => "deep",
    }
}

/// The layout with this name.
pub fn layout_named(word: &str) -> Option<Layout>
    ensures some { IfSome result (λ l. word.now ≡ layout_name l) }
    ensures none { IfNone result (IsNoLayout word.now) }
{
    match word {
        "wide" => Some(Layout::Wide),
        "tagged" => Some(Layout::Tagged),
        "deep" => Some(Layout::Deep),
        _ => None,
    }
}
