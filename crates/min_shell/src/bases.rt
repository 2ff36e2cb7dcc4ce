//! Three vertices that span space, to begin with.
ghost use Rattle.std.specs.Prelude.{◌≡◌};
ghost use Rattle.bounded_coords.specs.Clouds.{points_of};
ghost use Rattle.min_shell.specs.Vectors.{cross};
ghost use Rattle.min_shell.specs.Bases.{IsBasis, target_of};
ghost use Rattle.min_shell.specs.Targets.{IsTarget};
ghost use Rattle.min_shell.specs.Vertices.{IsSettled};
ghost use Rattle.min_shell.specs.Tetrahedra.{IsTetrahedron};
ghost use Rattle.min_shell.specs.OpenCoordinates.{AreFlat, x_axis, y_axis, z_axis, KeepsAxes, KeepsDirections};

use crate::extremes::extremes_of;
use crate::linear_forms::LinearForm;
use crate::targets::Target;
use crate::tetrahedra::Tetrahedron;
use crate::vertices::Vertex;
use bounded_coords::Cloud3;

/// Three vertices whose vectors span space. Their order is that of the axes: as seen from the origin they turn right.
#[derive(Clone, Copy)]
pub(crate) struct Basis {
    pub(crate) first: Vertex,
    pub(crate) second: Vertex,
    pub(crate) third: Vertex,
}

impl Basis {
    /// A basis with as many pairs of points as there can be.
    pub(crate) fn of(cloud: Cloud3<'_>) -> Basis
        ensures basis { IsBasis result }
        ensures first { IsSettled (points_of cloud.entry) result.first result.second result.third }
        ensures second { IsSettled (points_of cloud.entry) result.second result.third result.first }
        ensures third { IsSettled (points_of cloud.entry) result.third result.first result.second }
        ensures axes { KeepsAxes (points_of cloud.entry) result }
    {
        Basis::axes().turned(cloud).turned(cloud).turned(cloud)
    }

    /// The directions of the axes.
    fn axes() -> Basis
        ensures basis { IsBasis result }
        ensures x { result.first.vector ≡ x_axis }
        ensures y { result.second.vector ≡ y_axis }
        ensures z { result.third.vector ≡ z_axis }
    {
        Basis {
            first: Vertex::along(1, 0, 0),
            second: Vertex::along(0, 1, 0),
            third: Vertex::along(0, 0, 1),
        }
    }

    /// The second, the third, and a pair for the first: one that spans the points along the normal of the two. Where the points are all as
    /// far along it, the first remains.
    fn turned(self, cloud: Cloud3<'_>) -> Basis
        requires { IsBasis self }
        ensures basis { IsBasis result }
        ensures first { IsSettled (points_of cloud.entry) self.second self.third self.first → IsSettled (points_of cloud.entry) result.first result.second result.third }
        ensures second { IsSettled (points_of cloud.entry) self.third self.first self.second → IsSettled (points_of cloud.entry) result.second result.third result.first }
        ensures third { IsSettled (points_of cloud.entry) result.third result.first result.second }
        ensures next { result.first ≡ self.second }
        ensures after { result.second ≡ self.third }
        ensures remains { AreFlat (points_of cloud.entry) (cross self.second.vector self.third.vector) → result.third ≡ self.first }
    {
        let normal = self.second.vector.cross(self.third.vector);
        let extremes = extremes_of(cloud, LinearForm::of_normal(normal));
        if extremes.high == extremes.low {
            return Basis {
                first: self.second,
                second: self.third,
                third: self.first,
            };
        }
        Basis {
            first: self.second,
            second: self.third,
            third: Vertex::of(cloud, extremes.far, extremes.near),
        }
    }

    /// The target that the walk is for.
    pub(crate) fn target(self) -> Target
        requires { IsBasis self }
        ensures value { result ≡ target_of self }
        ensures target { IsTarget result }
    {
        Target {
            first: self.first.vector,
            second: self.second.vector,
            third: self.third.vector,
        }
    }

    /// The tetrahedron of the basis and no difference at all, around the target.
    pub(crate) fn tetrahedron(self, cloud: Cloud3<'_>) -> Tetrahedron
        requires basis { IsBasis self }
        requires first { IsSettled (points_of cloud) self.first self.second self.third }
        requires second { IsSettled (points_of cloud) self.second self.third self.first }
        requires third { IsSettled (points_of cloud) self.third self.first self.second }
        requires axes { KeepsAxes (points_of cloud) self }
        ensures around { IsTetrahedron (points_of cloud.entry) (target_of self) result }
        ensures directions { KeepsDirections (points_of cloud.entry) result }
    {
        Tetrahedron {
            a: self.second,
            b: self.first,
            c: self.third,
            d: Vertex::of(cloud, 0, 0),
        }
    }
}
