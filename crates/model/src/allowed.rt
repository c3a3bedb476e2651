// The domain that the search begins with: the starts that each operation may have, whatever the others do.
ghost use Rattle.model.specs.Domain.{DomainFor};

use sheet::Sheet;
use sizes::{MOST_OPERATIONS, MOST_STARTS};

// The starts that each operation may have.
pub fn allowed_domain(sheet: Sheet, interval: usize) -> [[bool; MOST_STARTS]; MOST_OPERATIONS]
    ensures { DomainFor sheet interval result }
{
    let mut domain = [[false; MOST_STARTS]; MOST_OPERATIONS];
    for i in 0..MOST_OPERATIONS {
        domain[i] = start_rules::allowed_starts(sheet, interval, i);
    }
    domain
}
