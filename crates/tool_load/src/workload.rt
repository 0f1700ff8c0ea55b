//! The workloads that are measured.
ghost use Rattle.std.specs.Prelude.{◌≡◌, IfSome, IfNone};
ghost use Rattle.tool_load.specs.Names.{IsNoWorkload, workload_name};

/// The work that the threads do, over and over.
#[derive(Clone, Copy, Debug, PartialEq, Eq)]
pub enum Workload {
    /// A pass gets a key and releases it.
    Get,
    /// A pass gets a key, reads its value and releases it.
    Read,
    /// The same as `Read`, into a value of the caller's.
    ReadInto,
    /// The same as `Get`, by a hold that keeps its place.
    GetGuard,
    /// The same as `ReadInto`, by a hold that keeps its place.
    ReadGuard,
    /// A pass reads the value of a key without a hold, into a value of the caller's.
    Look,
    /// An owner inserts, beside the live values.
    Insert,
    /// An owner fills its shard: it inserts, and nothing is removed.
    Fill,
    /// An owner removes what it inserted.
    Remove,
    /// An owner removes one of its values and inserts another in its place.
    Churn,
    /// An owner inserts, and a pass in another thread removes.
    Hand,
    /// A pass adopts a shard.
    Adopt,
    /// An owner leaves its shard.
    Leave,
    /// A pass gives a receipt and heeds it.
    Heed,
}

/// The name of a workload.
pub fn name(workload: Workload) -> &'static str
    ensures { result.now ≡ workload_name workload }
{
    match workload {
        Workload::Get => "get",
        Workload::Read => "read",
        Workload::ReadInto => "read-into",
        Workload::GetGuard => "get-guard",
        Workload::ReadGuard => "read-guard",
        Workload::Look => "look",
        Workload::Insert => "insert",
        Workload::Fill => "fill",
        Workload::Remove => "remove",
        Workload::Churn => "churn",
        Workload::Hand => "hand",
        Workload::Adopt => "adopt",
        Workload::Leave => "leave",
        Workload::Heed => "heed",
    }
}

/// The workload with this name.
pub fn workload_named(word: &str) -> Option<Workload>
    ensures some { IfSome result (λ w. word.now ≡ workload_name w) }
    ensures none { IfNone result (IsNoWorkload word.now) }
{
    match word {
        "get" => Some(Workload::Get),
        "read" => Some(Workload::Read),
        "read-into" => Some(Workload::ReadInto),
        "get-guard" => Some(Workload::GetGuard),
        "read-guard" => Some(Workload::ReadGuard),
        "look" => Some(Workload::Look),
        "insert" => Some(Workload::Insert),
        "fill" => Some(Workload::Fill),
        "remove" => Some(Workload::Remove),
        "churn" => Some(Workload::Churn),
        "hand" => Some(Workload::Hand),
        "adopt" => Some(Workload::Adopt),
        "leave" => Some(Workload::Leave),
        "heed" => Some(Workload::Heed),
        _ => None,
    }
}
