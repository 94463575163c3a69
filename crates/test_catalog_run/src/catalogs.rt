//! Catalogs that are refused.

use super::none_is_wrong;
use super::told_cases::{Case, RUN, Row, first_wrong};
use command_line::Status;

const LINES: &str = "top 1 by A using ta\n";

static NO_CATALOGS: [Row; 7] = [
    Row {
        case: Case {
            words: RUN,
            catalog: "name,place,random\nA,a,yes\nB,b,maybe\n",
            sources: &[],
            lines: LINES,
        },
        status: Status::BadCatalog,
        text: "refused catalog CatalogLine 3\n",
    },
    Row {
        case: Case {
            words: RUN,
            catalog: "name,place,random\nA,a,yes\nA,b,yes\n",
            sources: &[],
            lines: LINES,
        },
        status: Status::BadCatalog,
        text: "refused catalog SameName 3\n",
    },
    Row {
        case: Case {
            words: RUN,
            catalog: "",
            sources: &[],
            lines: LINES,
        },
        status: Status::BadCatalog,
        text: "refused catalog CatalogLine 1\n",
    },
    Row {
        case: Case {
            words: RUN,
            catalog: "A,a,yes\n",
            sources: &[],
            lines: LINES,
        },
        status: Status::BadCatalog,
        text: "refused catalog CatalogLine 1\n",
    },
    Row {
        case: Case {
            words: RUN,
            catalog: "name,place,random\nA,http://host/,yes\n",
            sources: &[],
            lines: LINES,
        },
        status: Status::BadCatalog,
        text: "refused catalog CatalogLine 2\n",
    },
    Row {
        case: Case {
            words: RUN,
            catalog: "name,place,random,sorted\nA,a,yes,no\nB,b,no,no\n",
            sources: &[],
            lines: LINES,
        },
        status: Status::BadCatalog,
        text: "refused catalog CatalogLine 3\n",
    },
    Row {
        case: Case {
            words: RUN,
            catalog: "name,place,random,sorted\nA,a,yes\n",
            sources: &[],
            lines: LINES,
        },
        status: Status::BadCatalog,
        text: "refused catalog CatalogLine 2\n",
    },
];

#[test]
fn refuses_what_is_no_catalog(rt: HostRuntime) {
    none_is_wrong(&rt, first_wrong(&rt, rt.alloc(), &NO_CATALOGS));
}
