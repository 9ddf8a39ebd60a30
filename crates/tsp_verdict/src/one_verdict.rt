//! A law: files have one verdict, and an instance with a certificate one bound. No code calls it:
//! it shows a reader that a report depends on the files alone, whoever makes it.

ghost use Rattle.tsp_verdict.specs.SolutionVerdict.{FilesHaveOneVerdict, FilesHaveOneBound, FilesHaveOneKnownBound, SolutionsHaveOneVerdict};

use tsp_cases::{case_tree_bounds_are_unique, numbers_are_unique};
use tsp_routing::plan_bounds_are_unique;

/// Files have one verdict, whichever TYPE, certificate and claim; so has an instance with a
/// certificate, and so has each solution of a comparison.
pub fn files_have_one_verdict()
    ensures verdict { FilesHaveOneVerdict }
    ensures bound { FilesHaveOneBound }
    ensures known_bound { FilesHaveOneKnownBound }
    ensures solution { SolutionsHaveOneVerdict }
{
    case_tree_bounds_are_unique();
    numbers_are_unique();
    plan_bounds_are_unique();
}
