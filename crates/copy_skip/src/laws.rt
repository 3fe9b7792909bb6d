// What a search asks of a fault and of a copy.

ghost use Rattle.copy_skip.specs.There.{SearchesBegin};

/// A search may begin with each fault that is a site of the design, and with each copy that stands for a faulty machine's state and keeps nothing equal. The function
/// does nothing when it runs; its contract is the law.
pub fn searches_begin()
    ensures { SearchesBegin }
{}
