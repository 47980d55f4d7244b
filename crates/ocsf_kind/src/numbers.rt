// The numbers of classes and events.
ghost use Rattle.std.specs.Prelude.{◌≡◌, ◌≤◌};
ghost use Rattle.ocsf_kind.specs.Numbers.{category_uid, class_uid, type_uid};

/// The number of a category. `extension` is the uid of the extension that gives it, 0 for core.
pub fn category_uid(extension: u32, category: u32) -> u64
    ensures { result ≡ category_uid extension category }
{
    u64::from(extension) * 100 + u64::from(category)
}

/// The number of a class. `category` is the uid written for its category, and `extension` the uid of the
/// extension that gives the class, 0 for core.
pub fn class_uid(extension: u32, category: u32, uid: u32) -> u64
    requires extension { extension ≤ 999 }
    requires category { category ≤ 99 }
    requires uid { uid ≤ 999 }
    ensures { result ≡ class_uid extension category uid }
{
    (u64::from(extension) * 100 + u64::from(category)) * 1000 + u64::from(uid)
}

/// The number of an activity of the class with that number.
pub fn type_uid(class: u64, activity: u32) -> u64
    requires class { class ≤ 99999999 }
    requires activity { activity ≤ 99 }
    ensures { result ≡ type_uid class activity }
{
    class * 100 + u64::from(activity)
}
