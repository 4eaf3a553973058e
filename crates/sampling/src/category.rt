// The four categories in which a unit's performance is summed.
ghost use Rattle.std.specs.Prelude.{◌≡◌, ◌^◌, ◌≤◌, pos, ◌+ℤ◌, if◌then◌else◌, unsigned_abs};
ghost use Rattle.sampling.specs.Category.{category_of, product_in, same, sum_in, Small};

use std::cmp::Ordering;
use std::ops::AddAssign;

// By the service that the frequency calls for, raise or lower, and whether the unit is enabled for it: in the order of the
// names RNEF, REF, LNEF and LEF.
#[derive(Clone, Copy, PartialEq, Eq, Debug)]
pub enum Category {
    RaiseNotEnabled,
    RaiseEnabled,
    LowerNotEnabled,
    LowerEnabled,
}

impl Category {
    // The category in which a sample counts, or none where the frequency indicator is 0. Raise and lower are two bools here and below, as in
    // the definitions.
    pub fn of(indicator: i16, raise: bool, lower: bool) -> Option<Category>
        ensures { result ≡ category_of indicator raise lower }
    {
        match indicator.cmp(&0) {
            Ordering::Greater if raise => Some(Category::RaiseEnabled),
            Ordering::Greater => Some(Category::RaiseNotEnabled),
            Ordering::Less if lower => Some(Category::LowerEnabled),
            Ordering::Less => Some(Category::LowerNotEnabled),
            Ordering::Equal => None,
        }
    }
}

// A figure for each category: four names, so that no number stands for a category.
#[derive(Clone, Copy, Default)]
pub struct Sums {
    pub raise_not_enabled: i64,
    pub raise_enabled: i64,
    pub lower_not_enabled: i64,
    pub lower_enabled: i64,
}

impl Sums {
    pub(crate) fn of(&self, category: Category) -> i64
        ensures { result ≡ sum_in self.now category }
    {
        match category {
            Category::RaiseNotEnabled => self.raise_not_enabled,
            Category::RaiseEnabled => self.raise_enabled,
            Category::LowerNotEnabled => self.lower_not_enabled,
            Category::LowerEnabled => self.lower_enabled,
        }
    }

    pub(crate) fn add(&mut self, category: Category, product: i64)
        requires sums { Small self.old }
        requires product { unsigned_abs product ≤ 2 ^ 60 }
        ensures { (c : Category) → sum_in self.new c ≡ sum_in self.old c +ℤ (if same c category then product else pos 0) }
    {
        match category {
            Category::RaiseNotEnabled => self.raise_not_enabled += product,
            Category::RaiseEnabled => self.raise_enabled += product,
            Category::LowerNotEnabled => self.lower_not_enabled += product,
            Category::LowerEnabled => self.lower_enabled += product,
        }
    }

    // Adds deviation × FI to the category in which the sample counts.
    pub(crate) fn count(&mut self, indicator: i16, raise: bool, lower: bool, deviation: i16)
        requires { Small self.old }
        ensures { (c : Category) → sum_in self.new c ≡ sum_in self.old c +ℤ product_in c indicator raise lower deviation }
    {
        if let Some(category) = Category::of(indicator, raise, lower) {
            self.add(category, deviation as i64 * indicator as i64);
        }
    }
}

impl AddAssign for Sums {
    ghost use Rattle.sampling.specs.declared.category.Category.{Category};

    ghost can_add_assign = { λ s t. Small s × Small t };

    ghost add_assign_gives = { λ s t r. (c : Category) → sum_in r c ≡ sum_in s c +ℤ sum_in t c };

    fn add_assign(&mut self, other: Sums) {
        self.raise_not_enabled += other.raise_not_enabled;
        self.raise_enabled += other.raise_enabled;
        self.lower_not_enabled += other.lower_not_enabled;
        self.lower_enabled += other.lower_enabled;
    }
}
